//! Sessions: calls of the editor over files in memory, a line each, as a script has them.
use crate::editor::{Answer, call_editor};
use crate::job::Refusal;
use crate::report::print_bytes;
use eel_base::{Files, MemFiles, MemSink, MemSource, be32_at};
use std::alloc::Global;
use std::io;

/// How many bytes a file may have that a script names.
const FILE_LIMIT: u64 = 16 << 20;

/// Where a written file says where its notes are.
const NOTES_AT: usize = 4040;

/// The calls of the files, the input, the output and the error stream that are to fail.
#[derive(Drop)]
struct Failures {
    files: Vec<u64>,
    input: Vec<u64>,
    out: Vec<u64>,
    err: Vec<u64>,
}

impl Failures {
    fn none(alloc: Global) -> Failures {
        Failures {
            files: Vec::new(alloc),
            input: Vec::new(alloc),
            out: Vec::new(alloc),
            err: Vec::new(alloc),
        }
    }

    /// The calls by the name of their device, or none of that name.
    fn of(&mut self, device: &str) -> Option<&mut Vec<u64>> {
        match device {
            "files" => Some(&mut self.files),
            "input" => Some(&mut self.input),
            "out" => Some(&mut self.out),
            "err" => Some(&mut self.err),
            _ => None,
        }
    }
}

/// What the calls of a session have to do with.
#[derive(Drop)]
pub struct Session {
    files: MemFiles,
    /// The names that a file may have.
    names: Vec<String>,
    /// What they held when last looked at, where a call's changes are told.
    seen: MemFiles,
    is_watched: bool,
    input: Vec<u8>,
    /// What is to fail in the next call.
    failures: Failures,
    out_room: usize,
    err_room: usize,
}

/// What came of a call, and the names that it changed, where these are watched.
#[derive(Drop)]
pub struct Told {
    answer: Answer,
    changed: Vec<String>,
}

impl Session {
    /// No file is held, the input is empty, and the streams have room for 64 KiB each.
    pub fn new(alloc: Global) -> Session {
        Session {
            files: MemFiles::new(alloc, Vec::new(alloc)),
            names: Vec::new(alloc),
            seen: MemFiles::new(alloc, Vec::new(alloc)),
            is_watched: false,
            input: Vec::new(alloc),
            failures: Failures::none(alloc),
            out_room: 64 << 10,
            err_room: 64 << 10,
        }
    }

    /// Carries out a line of a script. A line that begins with `eel` is a call of the editor, and has an answer. The
    /// others:
    ///
    /// - `hold NAME` holds this file of the script's folder;
    /// - `zeros NAME COUNT` holds a file of so many zeros;
    /// - `cut OLD NEW COUNT` holds the first bytes of OLD as NEW;
    /// - `patch OLD NEW AT BYTES ..` holds OLD as NEW, with these bytes at these offsets;
    /// - `noted OLD NEW AT BYTES ..` does the same with offsets in OLD's notes;
    /// - `keep NAME` puts a held file into the script's folder;
    /// - `input NAME` makes a file the input;
    /// - `input_zeros COUNT` makes so many zeros the input;
    /// - `room OUT ERR` says how many bytes the two streams take;
    /// - `fail DEVICE CALL ..` makes these calls of a device fail during the next call of the editor;
    /// - `watch`, the first line, has each later answer list the names that the call changed;
    /// - `same NAME NAME` is refused where the two files differ;
    /// - `cells DUMP NAME` is refused where the dump's cells differ from the file's words.
    pub fn act(
        &mut self,
        alloc: Global,
        folder: &mut impl Files,
        line: &str,
    ) -> Result<Option<Told>, Refusal> {
        let words: Vec<&str> = line.split(' ').collect(alloc)?;
        let Some((verb, words)) = words.as_slice().split_first() else {
            return Err(Refusal::Script);
        };
        if *verb == "eel" {
            return Ok(Some(self.call(alloc, words)?));
        }
        self.prepare(alloc, folder, verb, words)?;
        Ok(None)
    }

    /// Does what a line says that is no call.
    fn prepare(
        &mut self,
        alloc: Global,
        folder: &mut impl Files,
        verb: &str,
        words: &[&str],
    ) -> Result<(), Refusal> {
        match verb {
            "hold" => self.hold_named(alloc, folder, words),
            "zeros" => self.hold_zeros(alloc, words),
            "cut" => self.hold_first(alloc, words),
            "patch" => self.hold_patched(alloc, words),
            "noted" => self.hold_noted(alloc, words),
            "keep" => self.keep(folder, words),
            "input" => self.take_input(alloc, folder, words),
            "input_zeros" => self.take_zeros(alloc, words),
            "room" => self.make_room(words),
            "fail" => self.let_fail(alloc, words),
            "watch" => self.watch(words),
            "same" => self.are_same(words),
            "cells" => self.have_cells(words),
            _ => Err(Refusal::Script),
        }
    }

    // ---- what is held

    fn hold_named(
        &mut self,
        alloc: Global,
        folder: &mut impl Files,
        words: &[&str],
    ) -> Result<(), Refusal> {
        let [name] = words else {
            return Err(Refusal::Script);
        };
        let bytes = folder.fetch(alloc, name, FILE_LIMIT)?;
        self.hold(alloc, name, &bytes)
    }

    fn hold_zeros(&mut self, alloc: Global, words: &[&str]) -> Result<(), Refusal> {
        let [name, count] = words else {
            return Err(Refusal::Script);
        };
        let bytes = vec![in alloc; 0; number(count)?]?;
        self.hold(alloc, name, &bytes)
    }

    fn hold_first(&mut self, alloc: Global, words: &[&str]) -> Result<(), Refusal> {
        let [old, new, count] = words else {
            return Err(Refusal::Script);
        };
        let mut bytes = self.copy(alloc, old)?;
        bytes.truncate(number(count)?);
        self.hold(alloc, new, &bytes)
    }

    fn hold_patched(&mut self, alloc: Global, words: &[&str]) -> Result<(), Refusal> {
        let [old, new, patches @ ..] = words else {
            return Err(Refusal::Script);
        };
        let bytes = patched(self.copy(alloc, old)?, 0, patches)?;
        self.hold(alloc, new, &bytes)
    }

    fn hold_noted(&mut self, alloc: Global, words: &[&str]) -> Result<(), Refusal> {
        let [old, new, patches @ ..] = words else {
            return Err(Refusal::Script);
        };
        let bytes = self.copy(alloc, old)?;
        let notes = be32_at(&bytes, NOTES_AT).ok_or(Refusal::Script)?;
        let bytes = patched(bytes, notes as usize, patches)?;
        self.hold(alloc, new, &bytes)
    }

    fn keep(&self, folder: &mut impl Files, words: &[&str]) -> Result<(), Refusal> {
        let [name] = words else {
            return Err(Refusal::Script);
        };
        let bytes = self.files.get(name).ok_or(Refusal::Unread)?;
        folder.put(name, bytes).map_err(|_| Refusal::Unread)
    }

    // ---- what calls have to do with

    fn take_input(
        &mut self,
        alloc: Global,
        folder: &mut impl Files,
        words: &[&str],
    ) -> Result<(), Refusal> {
        let [name] = words else {
            return Err(Refusal::Script);
        };
        self.input = folder.fetch(alloc, name, FILE_LIMIT)?;
        Ok(())
    }

    fn take_zeros(&mut self, alloc: Global, words: &[&str]) -> Result<(), Refusal> {
        let [count] = words else {
            return Err(Refusal::Script);
        };
        self.input = vec![in alloc; 0; number(count)?]?;
        Ok(())
    }

    fn make_room(&mut self, words: &[&str]) -> Result<(), Refusal> {
        let [out, err] = words else {
            return Err(Refusal::Script);
        };
        self.out_room = number(out)?;
        self.err_room = number(err)?;
        Ok(())
    }

    fn let_fail(&mut self, alloc: Global, words: &[&str]) -> Result<(), Refusal> {
        let [device, calls @ ..] = words else {
            return Err(Refusal::Script);
        };
        let failing = self.failures.of(device).ok_or(Refusal::Script)?;
        *failing = numbers(alloc, calls)?;
        Ok(())
    }

    fn watch(&mut self, words: &[&str]) -> Result<(), Refusal> {
        if !words.is_empty() {
            return Err(Refusal::Script);
        }
        self.is_watched = true;
        Ok(())
    }

    // ---- what must be

    fn are_same(&self, words: &[&str]) -> Result<(), Refusal> {
        let [first, second] = words else {
            return Err(Refusal::Script);
        };
        alike(self.files.get(first), self.files.get(second))
    }

    fn have_cells(&self, words: &[&str]) -> Result<(), Refusal> {
        let [dump, words] = words else {
            return Err(Refusal::Script);
        };
        alike(self.files.get(dump).and_then(cells), self.files.get(words))
    }

    // ---- files and names

    fn hold(&mut self, alloc: Global, name: &str, bytes: &[u8]) -> Result<(), Refusal> {
        self.know(alloc, name)?;
        self.files.add(name, bytes)?;
        if self.is_watched {
            self.seen.add(name, bytes)?;
        }
        Ok(())
    }

    /// Keeps the name in mind.
    fn know(&mut self, alloc: Global, name: &str) -> Result<(), Refusal> {
        if !self.names.iter().any(|known| known.as_str() == name) {
            let name = String::from_str(alloc, name)?;
            self.names.push(name)?;
        }
        Ok(())
    }

    /// The bytes of a file that is held.
    fn copy(&self, alloc: Global, name: &str) -> Result<Vec<u8>, Refusal> {
        match self.files.get(name) {
            Some(bytes) => Ok(Vec::from_slice(alloc, bytes)?),
            None => Err(Refusal::Unread),
        }
    }

    /// The session's files, of which these calls are to fail.
    fn files_again(&self, alloc: Global, fail: Vec<u64>) -> Result<MemFiles, Refusal> {
        let mut files = MemFiles::new(alloc, fail);
        for name in self.names.iter() {
            if let Some(bytes) = self.files.get(name) {
                files.add(name, bytes)?;
            }
        }
        Ok(files)
    }

    /// Calls the editor. What was to fail in this call doesn't in the next.
    fn call(&mut self, alloc: Global, words: &[&str]) -> Result<Told, Refusal> {
        for word in words {
            self.know(alloc, word)?;
        }
        let Failures {
            files: unfetched,
            input: unread,
            out: unput,
            err: untold,
        } = std::mem::replace(&mut self.failures, Failures::none(alloc));
        let is_failing = !unfetched.is_empty();
        if is_failing {
            self.files = self.files_again(alloc, unfetched)?;
        }
        let given = Vec::from_slice(alloc, &self.input)?;
        let input = MemSource::new(given, unread);
        let out = MemSink::new(alloc, self.out_room, unput)?;
        let err = MemSink::new(alloc, self.err_room, untold)?;
        let answer = call_editor(alloc, words, &mut self.files, input, out, err);
        if is_failing {
            self.files = self.files_again(alloc, Vec::new(alloc))?;
        }
        Ok(Told {
            answer,
            changed: self.changes(alloc)?,
        })
    }

    /// The names whose files aren't as they were seen last, where these are watched.
    fn changes(&mut self, alloc: Global) -> Result<Vec<String>, Refusal> {
        let mut changed = Vec::new(alloc);
        if !self.is_watched {
            return Ok(changed);
        }
        for name in self.names.iter() {
            if self.files.get(name) != self.seen.get(name) {
                self.seen.add(name, self.files.get(name).unwrap_or(&[]))?;
                changed.push(String::from_str(alloc, name)?)?;
            }
        }
        Ok(changed)
    }
}

fn alike(first: Option<&[u8]>, second: Option<&[u8]>) -> Result<(), Refusal> {
    if first == second {
        Ok(())
    } else {
        Err(Refusal::Different)
    }
}

/// The bytes with others in the place of some: pairs of an offset from `base`, and two digits for each byte that
/// stands there. Zeros fill what is missing before them.
fn patched(mut bytes: Vec<u8>, base: usize, patches: &[&str]) -> Result<Vec<u8>, Refusal> {
    for patch in patches.chunks(2) {
        let [at, digits] = patch else {
            return Err(Refusal::Script);
        };
        let at = base.saturating_add(number(at)?);
        for (place, digits) in digits.as_bytes().chunks(2).enumerate() {
            let place = at.saturating_add(place);
            for _ in bytes.len()..place.saturating_add(1) {
                bytes.push(0)?;
            }
            if let Some(byte) = bytes.get_mut(place) {
                *byte = hexadecimal(digits).ok_or(Refusal::Script)?;
            }
        }
    }
    Ok(bytes)
}

/// The byte that two digits name.
fn hexadecimal(digits: &[u8]) -> Option<u8> {
    let digits = str::from_utf8(digits).ok()?;
    u8::from_str_radix(digits, 16).ok()
}

/// The bytes of a dump's cells. They stand behind the size of the original where the dump's version tells it.
fn cells(dump: &[u8]) -> Option<&[u8]> {
    match be32_at(dump, 4) {
        Some(1) => dump.get(32..),
        _ => dump.get(36..),
    }
}

fn number(word: &str) -> Result<usize, Refusal> {
    word.parse().map_err(|_| Refusal::Script)
}

fn numbers(alloc: Global, words: &[&str]) -> Result<Vec<u64>, Refusal> {
    let mut all = Vec::with_capacity(alloc, words.len())?;
    for word in words {
        match word.parse() {
            Ok(number) => all.push(number)?,
            Err(_) => return Err(Refusal::Script),
        }
    }
    Ok(all)
}

/// The script in the file `name`.
pub fn read_script(alloc: Global, folder: &mut impl Files, name: &str) -> Result<String, Refusal> {
    let bytes = folder.fetch(alloc, name, FILE_LIMIT)?;
    String::from_utf8(bytes).map_err(|_| Refusal::Script)
}

/// Prints each call of the script, and what comes of it.
pub fn play(rt: &HostRuntime, folder: &mut impl Files, script: &str) -> io::Result<()> {
    let mut session = Session::new(rt.alloc());
    for line in script.lines() {
        match session.act(rt.alloc(), folder, line) {
            Ok(None) => {}
            Ok(Some(told)) => print_told(rt, line, &told)?,
            Err(refusal) => println!(rt; "{line}: {refusal}")?,
        }
    }
    Ok(())
}

fn print_told(rt: &HostRuntime, line: &str, told: &Told) -> io::Result<()> {
    println!(rt; "{line}: {}", told.answer.status)?;
    print_bytes(rt, "", told.answer.out.bytes())?;
    print_bytes(rt, "to the error stream: ", told.answer.err.bytes())?;
    for name in told.changed.iter() {
        println!(rt; "changed: {name}")?;
    }
    Ok(())
}
