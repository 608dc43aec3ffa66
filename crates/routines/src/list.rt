//! The list of routines.
ghost use Rattle.std.specs.Prelude.{◌≡◌, ◌<◌, length, map, IfOk};
ghost use Rattle.std.specs.List.{All};
ghost use Rattle.routines.specs.Routines.{routines_of};
ghost use Rattle.routines.specs.Starts.{routine_of};

use crate::Routine;
use crate::starts::{Starts, in_order, starts_of};
use eel_base::{NoMemory, WordNo};
use elf32_sparc::Image;
use std::alloc::Global;
use std::marker::Model;

/// The routines of a program, in address order, each address once.
#[derive(Drop)]
pub struct Routines {
    list: Vec<Routine>,
}

impl Model for Routines {
    ghost use Rattle.std.specs.Prelude.{List};
    ghost use Rattle.routines.specs.declared.Routine.{Routine};

    ghost Value = { List Routine };

    ghost view = { λ r. r.list.items };
}

impl Routines {
    #[inline]
    pub fn list(&self) -> &[Routine]
        ensures { result.now ≡ self.now }
    {
        &self.list
    }
}

/// The routines of the program of an image.
pub fn find(alloc: Global, image: &Image) -> Result<Routines, NoMemory>
    ensures routines { IfOk result (λ routines. routines ≡ routines_of image.now) }
    ensures inside { IfOk result (λ routines.
        All (λ routine. routine.start.0 < length image.now.text.words) routines) }
{
    let starts = starts_of(alloc, image)?;
    let sorted = in_order(starts)?;
    let list = listed(alloc, sorted)?;
    Ok(Routines { list })
}

/// The routines of these starts.
fn listed(alloc: Global, starts: Starts) -> Result<Vec<Routine>, NoMemory>
    ensures { IfOk result (λ list. list.items ≡ map routine_of starts.entries) }
{
    let mut list = Vec::with_capacity(alloc, starts.len())?;
    for (word, name) in starts {
        list.push(Routine {
            start: WordNo(word),
            name,
        })?;
    }
    Ok(list)
}
