//! Many steps in order at once: pc and npc stand outside of the machine, as places among the records.
ghost use Rattle.std.specs.Prelude.{◌≡◌, ◌⊎◌, ◌+◌, ◌<◌, ◌≤◌, ◌*◌, ◌%◌, ◌^◌, ℕ, IsTrue, None, Ok, Err, MatchResult, length, true, false, ◌==◌};
ghost use Rattle.std.specs.Int.{w32, cast_unsigned};
ghost use Rattle.v8_alu.specs.Alu.{alu_of};
ghost use Rattle.v8_alu.specs.Numbers.{wrapped};
ghost use Rattle.v8_decode.specs.Forms.{has_form};
ghost use Rattle.v8_decode.specs.declared.Instr.TheVariants as instrs;
ghost use Rattle.v8_memory.specs.Kept.{AreKept};
ghost use Rattle.v8_memory.specs.Ops.{IsSum, alu_in, instr_of, operand_in};
ghost use Rattle.v8_memory.specs.Private.{is_record};
ghost use Rattle.v8_memory.specs.Regions.{code_of};
ghost use Rattle.v8_step.specs.Ahead.{IsNear, IsTurn, address_at, at_places, slot_by, slot_of};
ghost use Rattle.v8_step.specs.Turns.{IsQuietRun};

use crate::Slot;
use crate::accesses::next_register;
use crate::machine::{Machine, register};
use crate::turns::{condition, pair};
use eel_base::Addr;
use v8_alu::{AluTrap, Codes, alu, difference_of, logic_value};
use v8_decode::{AluOp, LoadKind, Reg, StoreKind};
use v8_memory::{OpCode, Predecoded, op_in};

/// What comes of carrying out one record.
#[derive(Clone, Copy, Drop)]
pub enum Control {
    /// The next instruction in order.
    On,
    /// The next instruction in order, which is the delay slot of a branch that isn't taken.
    Past,
    /// The delay slot, and then the record at this place.
    To(usize),
    /// The record at this place.
    At(usize),
    /// Nothing was carried out: `step` has to do it.
    Stop,
}

/// The place of an instruction and of the one after it among `len` records, of which the one of the word at `first` is
/// the first; `spare` is how many steps may still be made, and `next` more, beside those that all records in order take.
/// `slot` is that of the last transfer, as long as `next` is below `slot_end`.
#[derive(Clone, Copy, Drop)]
pub struct Cursor {
    pub first: u32,
    pub len: usize,
    pub cur: usize,
    pub next: usize,
    pub spare: u64,
    pub slot_end: usize,
    pub slot: Slot,
}

impl Cursor {
    /// Whether the instruction is in the delay slot of a transfer.
    #[inline(always)]
    #[tactic(auto, using(crate::proofs::InOrder::no_slot))]
    fn is_in_slot(&self) -> bool
        ensures { result ≡ false → slot_of self.now ≡ Slot.NoSlot }
    {
        self.next < self.slot_end
    }

    /// The place so many words on, or back.
    #[inline(always)]
    #[tactic(auto, using(crate::proofs::InOrder::target_place))]
    fn place(&self, displacement: i32) -> usize
        ensures { address_at self.now.first result ≡ wrapped (address_at self.now.first self.now.cur + 4 * cast_unsigned w32 displacement) }
    {
        self.cur
            .wrapping_add((displacement as isize).cast_unsigned())
    }

    /// Whether there is a record at a place, and enough steps are left to go there, and on in order.
    #[inline(always)]
    fn reaches(&self, place: usize) -> bool
        ensures near { result ≡ true → IsNear place self.now }
        ensures far { result ≡ false → IsNear place self.now → ⊥ }
    {
        place < self.len && (self.next as u64) < self.spare
    }
}

impl Machine {
    /// Carries out the instruction of a record but for pc and npc. Where it stops nothing is changed.
    #[inline(always)]
    #[tactic(auto, unfolding(v8_memory::specs::Ops::instr_of))]
    fn execute(&mut self, op: &Predecoded, here: Cursor) -> Control
        requires sum { IsSum op.now.rs2 op.now.imm }
        ensures turned { IsTurn result here self.old (instr_of op.now) self.new }
        ensures said { (result ≡ Control.Stop) ⊎ IsTrue (is_record op.now.code) }
    {
        match op.code {
            OpCode::Sethi => self.execute_sethi(op, here),
            OpCode::B0 => self.execute_branch(0, op, here),
            OpCode::B1 => self.execute_branch(1, op, here),
            OpCode::B2 => self.execute_branch(2, op, here),
            OpCode::B3 => self.execute_branch(3, op, here),
            OpCode::B4 => self.execute_branch(4, op, here),
            OpCode::B5 => self.execute_branch(5, op, here),
            OpCode::B6 => self.execute_branch(6, op, here),
            OpCode::B7 => self.execute_branch(7, op, here),
            OpCode::B8 => self.execute_branch(8, op, here),
            OpCode::B9 => self.execute_branch(9, op, here),
            OpCode::B10 => self.execute_branch(10, op, here),
            OpCode::B11 => self.execute_branch(11, op, here),
            OpCode::B12 => self.execute_branch(12, op, here),
            OpCode::B13 => self.execute_branch(13, op, here),
            OpCode::B14 => self.execute_branch(14, op, here),
            OpCode::B15 => self.execute_branch(15, op, here),
            OpCode::Call => self.execute_call(op.imm, here),
            OpCode::Add => self.execute_plain(AluOp::ADD, op, here),
            OpCode::AddCc => self.execute_alu(AluOp::ADD, op, here),
            OpCode::Sub => self.execute_plain(AluOp::SUB, op, here),
            OpCode::SubCc => self.execute_compare(op, here),
            OpCode::And => self.execute_plain(AluOp::AND, op, here),
            OpCode::AndCc => self.execute_logic(AluOp::AND, op, here),
            OpCode::Or => self.execute_plain(AluOp::OR, op, here),
            OpCode::OrCc => self.execute_logic(AluOp::OR, op, here),
            OpCode::Xor => self.execute_plain(AluOp::XOR, op, here),
            OpCode::XorCc => self.execute_logic(AluOp::XOR, op, here),
            OpCode::Andn => self.execute_plain(AluOp::ANDN, op, here),
            OpCode::AndnCc => self.execute_logic(AluOp::ANDN, op, here),
            OpCode::Orn => self.execute_plain(AluOp::ORN, op, here),
            OpCode::Xnor => self.execute_plain(AluOp::XNOR, op, here),
            OpCode::XnorCc => self.execute_logic(AluOp::XNOR, op, here),
            OpCode::Addx => self.execute_plain(AluOp::ADDX, op, here),
            OpCode::AddxCc => self.execute_alu(AluOp::ADDX, op, here),
            OpCode::Subx => self.execute_plain(AluOp::SUBX, op, here),
            OpCode::SubxCc => self.execute_alu(AluOp::SUBX, op, here),
            OpCode::Umul => self.execute_plain(AluOp::UMUL, op, here),
            OpCode::Smul => self.execute_plain(AluOp::SMUL, op, here),
            OpCode::Udiv => self.execute_plain(AluOp::UDIV, op, here),
            OpCode::Sdiv => self.execute_plain(AluOp::SDIV, op, here),
            OpCode::MulsCc => self.execute_alu(AluOp::MULScc, op, here),
            OpCode::Sll => self.execute_plain(AluOp::SLL, op, here),
            OpCode::Srl => self.execute_plain(AluOp::SRL, op, here),
            OpCode::Sra => self.execute_plain(AluOp::SRA, op, here),
            OpCode::ReadY => self.execute_read_y(op, here),
            OpCode::WriteY => self.execute_write_y(op, here),
            OpCode::Ld => self.execute_load(LoadKind::LD, op, here),
            OpCode::Ldub => self.execute_load(LoadKind::LDUB, op, here),
            OpCode::Lduh => self.execute_load(LoadKind::LDUH, op, here),
            OpCode::Ldsb => self.execute_load(LoadKind::LDSB, op, here),
            OpCode::Ldsh => self.execute_load(LoadKind::LDSH, op, here),
            OpCode::Ldd => self.execute_load_pair(op, here),
            OpCode::St => self.execute_store(StoreKind::ST, op.rd, op, here),
            OpCode::Stb => self.execute_store(StoreKind::STB, op.rd, op, here),
            OpCode::Sth => self.execute_store(StoreKind::STH, op.rd, op, here),
            OpCode::Std => self.execute_store(StoreKind::STD, pair(op.rd), op, here),
            OpCode::Swap => self.execute_swap(op, here),
            OpCode::Jmpl => self.execute_jump(op, here),
            OpCode::Save => self.execute_save(op, here),
            OpCode::Restore => self.execute_restore(op, here),
            OpCode::Other => Control::Stop,
        }
    }

    /// Puts pc and npc at places. Not inlined: else the loop keeps an address live beside each place.
    #[inline(never)]
    fn stand_at(&mut self, first: u32, cur: usize, next: usize, slot: Slot)
        ensures { self.new ≡ at_places self.old first cur next slot }
    {
        self.pc = address(first, cur);
        self.npc = address(first, next);
        self.slot = slot;
    }

    #[inline(always)]
    #[tactic(auto, using(crate::proofs::InOrder::goes_on), unfolding(crate::specs::Step::act))]
    fn execute_sethi(&mut self, op: &Predecoded, here: Cursor) -> Control
        ensures { IsTurn result here self.old (instrs.Sethi op.now.rd (cast_unsigned w32 op.now.imm)) self.new }
    {
        self.set(op.rd, op.imm.cast_unsigned().wrapping_mul(1024));
        Control::On
    }

    #[inline(always)]
    #[tactic(auto, using(crate::proofs::InOrder::goes_on), unfolding(crate::specs::Step::act))]
    fn execute_read_y(&mut self, op: &Predecoded, here: Cursor) -> Control
        ensures { IsTurn result here self.old (instrs.ReadY op.now.rd) self.new }
    {
        self.set(op.rd, self.y);
        Control::On
    }

    #[inline(always)]
    #[tactic(auto, using(crate::proofs::InOrder::goes_on), unfolding(crate::specs::Step::act))]
    fn execute_write_y(&mut self, op: &Predecoded, here: Cursor) -> Control
        requires sum { IsSum op.now.rs2 op.now.imm }
        ensures { IsTurn result here self.old (instrs.WriteY op.now.rs1 (operand_in op.now.rs2 op.now.imm)) self.new }
    {
        self.y = self.reg(op.rs1) ^ self.op_operand(op);
        Control::On
    }

    #[inline(always)]
    #[tactic(auto, using(crate::proofs::InOrder::goes_on), unfolding(crate::specs::Step::act, crate::specs::Step::alu_step))]
    fn execute_alu(&mut self, kind: AluOp, op: &Predecoded, here: Cursor) -> Control
        requires form { IsTrue (has_form kind true) }
        requires sum { IsSum op.now.rs2 op.now.imm }
        ensures { IsTurn result here self.old (alu_in kind true op.now) self.new }
    {
        let first = self.reg(op.rs1);
        let second = self.op_operand(op);
        match alu(kind, true, first, second, self.flags.codes(), self.y) {
            Ok(outcome) => {
                self.flags.set(outcome.codes);
                self.y = outcome.y;
                self.set(op.rd, outcome.value);
                Control::On
            }
            Err(_) => Control::Stop,
        }
    }

    /// A logical operation that sets the codes, which are worked out where they are read.
    #[inline(always)]
    #[tactic(auto, using(crate::proofs::InOrder::goes_on), unfolding(crate::specs::Step::act, crate::specs::Step::alu_step))]
    fn execute_logic(&mut self, kind: AluOp, op: &Predecoded, here: Cursor) -> Control
        requires sum { IsSum op.now.rs2 op.now.imm }
        ensures { IsTurn result here self.old (alu_in kind true op.now) self.new }
    {
        match logic_value(kind, self.reg(op.rs1), self.op_operand(op)) {
            Some(value) => {
                self.flags.judge(value);
                self.set(op.rd, value);
                Control::On
            }
            None => Control::Stop,
        }
    }

    #[inline(always)]
    #[tactic(auto, using(crate::proofs::InOrder::goes_on), unfolding(crate::specs::Step::act, crate::specs::Step::alu_step))]
    fn execute_plain(&mut self, kind: AluOp, op: &Predecoded, here: Cursor) -> Control
        requires form { IsTrue (has_form kind false) }
        requires sum { IsSum op.now.rs2 op.now.imm }
        ensures { IsTurn result here self.old (alu_in kind false op.now) self.new }
    {
        let first = self.reg(op.rs1);
        let second = self.op_operand(op);
        match plain_outcome(kind, first, second, self.flags.codes(), self.y) {
            Ok((value, y)) => {
                self.y = y;
                self.set(op.rd, value);
                Control::On
            }
            Err(_) => Control::Stop,
        }
    }

    /// SUBcc, whose codes are worked out where they are read.
    #[inline(always)]
    #[tactic(auto, using(crate::proofs::InOrder::goes_on), unfolding(crate::specs::Step::act, crate::specs::Step::alu_step, v8_alu::specs::Alu::alu_of))]
    fn execute_compare(&mut self, op: &Predecoded, here: Cursor) -> Control
        requires sum { IsSum op.now.rs2 op.now.imm }
        ensures { IsTurn result here self.old (alu_in AluOp.SUB true op.now) self.new }
    {
        let first = self.reg(op.rs1);
        let second = self.op_operand(op);
        self.flags.compare(first, second);
        self.set(op.rd, difference_of(first, second));
        Control::On
    }

    #[inline(always)]
    #[tactic(auto, using(crate::proofs::InOrder::goes_on), unfolding(crate::specs::Step::act, crate::specs::Accesses::load_step))]
    fn execute_load(&mut self, kind: LoadKind, op: &Predecoded, here: Cursor) -> Control
        requires single { kind ≡ LoadKind.LDD → ⊥ }
        requires sum { IsSum op.now.rs2 op.now.imm }
        ensures { IsTurn result here self.old (instrs.Load kind op.now.rd op.now.rs1 (operand_in op.now.rs2 op.now.imm)) self.new }
    {
        match self.loaded(kind, Addr(self.op_sum(op))) {
            Ok(value) => {
                self.set(op.rd, value);
                Control::On
            }
            Err(_) => Control::Stop,
        }
    }

    #[inline(always)]
    #[tactic(auto, using(crate::proofs::InOrder::goes_on), unfolding(crate::specs::Step::act, crate::specs::Accesses::load_step))]
    fn execute_load_pair(&mut self, op: &Predecoded, here: Cursor) -> Control
        requires sum { IsSum op.now.rs2 op.now.imm }
        ensures { IsTurn result here self.old (instrs.Load LoadKind.LDD (2 * (op.now.rd % 16)) op.now.rs1 (operand_in op.now.rs2 op.now.imm)) self.new }
    {
        let rd = pair(op.rd);
        match self.memory.load64(Addr(self.op_sum(op))) {
            Ok((first, second)) => {
                self.set(rd, first);
                self.set(next_register(rd), second);
                Control::On
            }
            Err(_) => Control::Stop,
        }
    }

    #[inline(always)]
    #[tactic(auto, using(crate::proofs::InOrder::goes_on), unfolding(crate::specs::Step::act, crate::specs::Accesses::store_step))]
    fn execute_store(&mut self, kind: StoreKind, rd: Reg, op: &Predecoded, here: Cursor) -> Control
        requires pair { kind ≡ StoreKind.STD → rd % 2 ≡ 0 }
        requires sum { IsSum op.now.rs2 op.now.imm }
        ensures { IsTurn result here self.old (instrs.Store kind rd op.now.rs1 (operand_in op.now.rs2 op.now.imm)) self.new }
    {
        match self.put(kind, rd, Addr(self.op_sum(op))) {
            Ok(()) => Control::On,
            Err(_) => Control::Stop,
        }
    }

    #[inline(always)]
    #[tactic(auto, using(crate::proofs::InOrder::goes_on), unfolding(crate::specs::Step::act, crate::specs::Accesses::swap_step))]
    fn execute_swap(&mut self, op: &Predecoded, here: Cursor) -> Control
        requires sum { IsSum op.now.rs2 op.now.imm }
        ensures { IsTurn result here self.old (instrs.Swap op.now.rd op.now.rs1 (operand_in op.now.rs2 op.now.imm)) self.new }
    {
        let value = self.reg(op.rd);
        match self.exchange_word(Addr(self.op_sum(op)), value) {
            Ok(old) => {
                self.set(op.rd, old);
                Control::On
            }
            Err(_) => Control::Stop,
        }
    }

    #[inline(always)]
    #[tactic(auto, using(crate::proofs::InOrder::goes_on), unfolding(crate::specs::Step::act))]
    fn execute_save(&mut self, op: &Predecoded, here: Cursor) -> Control
        requires sum { IsSum op.now.rs2 op.now.imm }
        ensures { IsTurn result here self.old (instrs.Save op.now.rd op.now.rs1 (operand_in op.now.rs2 op.now.imm)) self.new }
    {
        if self.save_in_order(op.rd, self.op_sum(op)) {
            Control::On
        } else {
            Control::Stop
        }
    }

    #[inline(always)]
    #[tactic(auto, using(crate::proofs::InOrder::goes_on), unfolding(crate::specs::Step::act))]
    fn execute_restore(&mut self, op: &Predecoded, here: Cursor) -> Control
        requires sum { IsSum op.now.rs2 op.now.imm }
        ensures { IsTurn result here self.old (instrs.Restore op.now.rd op.now.rs1 (operand_in op.now.rs2 op.now.imm)) self.new }
    {
        if self.restore_in_order(op.rd, self.op_sum(op)) {
            Control::On
        } else {
            Control::Stop
        }
    }

    /// A branch on the condition with this number. Where it is inlined, this is a constant.
    #[inline(always)]
    #[tactic(auto, using(crate::proofs::InOrder::target_place, crate::proofs::InOrder::next_address, crate::proofs::InOrder::after_annulled), unfolding(crate::specs::Step::act, crate::specs::Transfers::branch_step))]
    fn execute_branch(&mut self, cond: u8, op: &Predecoded, here: Cursor) -> Control
        requires { cond < 16 }
        ensures { IsTurn result here self.old (instrs.Branch cond (op.now.rd == 1) op.now.imm) self.new }
    {
        if here.is_in_slot() {
            return Control::Stop;
        }
        let annul = op.rd.number() == 1;
        if self.flags.holds(condition(cond)) {
            let place = here.place(op.imm);
            if !here.reaches(place) {
                Control::Stop
            } else if cond == 8 && annul {
                Control::At(place)
            } else {
                Control::To(place)
            }
        } else if annul {
            let place = here.cur.wrapping_add(2);
            if here.reaches(place) {
                Control::At(place)
            } else {
                Control::Stop
            }
        } else {
            Control::Past
        }
    }

    #[inline(always)]
    #[tactic(auto, using(crate::proofs::InOrder::target_place), unfolding(crate::specs::Step::act, crate::specs::Transfers::call_step))]
    fn execute_call(&mut self, disp30: i32, here: Cursor) -> Control
        ensures { IsTurn result here self.old (instrs.Call disp30) self.new }
    {
        let place = here.place(disp30);
        if here.is_in_slot() || !here.reaches(place) {
            return Control::Stop;
        }
        self.set(register(15), address(here.first, here.cur));
        Control::To(place)
    }

    #[inline(always)]
    #[tactic(auto, using(crate::proofs::InOrder::jump_place), unfolding(crate::specs::Step::act, crate::specs::Transfers::jump_step))]
    fn execute_jump(&mut self, op: &Predecoded, here: Cursor) -> Control
        requires sum { IsSum op.now.rs2 op.now.imm }
        ensures { IsTurn result here self.old (instrs.Jmpl op.now.rd op.now.rs1 (operand_in op.now.rs2 op.now.imm)) self.new }
    {
        let target = self.op_sum(op);
        let offset = target.wrapping_sub(here.first);
        let place = (offset / 4) as usize;
        if here.is_in_slot() || target % 4 != 0 || offset % 4 != 0 || !here.reaches(place) {
            return Control::Stop;
        }
        self.set(op.rd, address(here.first, here.cur));
        Control::To(place)
    }
}

/// The slot where `next` is this.
#[tactic(auto, unfolding(crate::specs::Ahead::slot_by))]
fn slot_at(next: usize, slot_end: usize, slot: Slot) -> Slot
    ensures { result ≡ slot_by next slot_end slot }
{
    if next < slot_end { slot } else { Slot::NoSlot }
}

/// The value and Y that an operation leaves, which leaves the codes.
#[inline(always)]
#[tactic(auto, using(crate::proofs::InOrder::codes_kept))]
fn plain_outcome(kind: AluOp, a: u32, b: u32, codes: Codes, y: u32) -> Result<(u32, u32), AluTrap>
    requires form { IsTrue (has_form kind false) }
    ensures { MatchResult result (λ out. alu_of kind false a b codes y ≡ Ok (record { value = out.0; codes = codes; y = out.1 }))
        (λ trap. alu_of kind false a b codes y ≡ Err trap) }
{
    match alu(kind, false, a, b, codes, y) {
        Ok(outcome) => Ok((outcome.value, outcome.y)),
        Err(trap) => Err(trap),
    }
}

/// The address of the word at a place.
#[inline(always)]
fn address(first: u32, place: usize) -> u32
    ensures { result ≡ address_at first place }
{
    first.wrapping_add(((place % 0x1_0000_0000) as u32).wrapping_mul(4))
}

/// Makes steps in order, and where transfers lead, as long as the instructions have records, and enough steps are left. It
/// stops before an instruction that it doesn't make.
#[inline(never)]
#[tactic(auto, using(crate::proofs::QuietRuns::no_step))]
pub(crate) fn run_predecoded(ops: &[Predecoded], first: u32, m: &mut Machine, limit: u64) -> u64
    requires going { m.old.ending ≡ None }
    requires kept { AreKept (code_of m.old.memory) first ops.now }
    requires far { limit ≤ 2 ^ 62 }
    ensures run { IsQuietRun m.old result m.new }
    ensures few { result ≤ limit }
    ensures code { AreKept (code_of m.new.memory) first ops.now }
{
    let len = ops.len();
    if len == 0 || limit < len as u64 + 2 {
        return 0;
    }
    let last = op_in(ops, first, len - 1);
    if last.code != OpCode::Other {
        return 0;
    }
    let offset = m.pc.wrapping_sub(first);
    let after = m.npc.wrapping_sub(first);
    let mut cur = (offset / 4) as usize;
    let mut next = (after / 4) as usize;
    if offset % 4 != 0 || after % 4 != 0 || cur >= len || next >= len {
        return 0;
    }
    let mut spare = limit + next as u64 - len as u64 - 1;
    let mut slot_end = next + 1;
    let mut slot = m.slot;
    // pc and npc are the places `cur` and `next`. In order they move on by one, and nothing is compared: the last record
    // says nothing, and `spare` leaves room for all records in order, so that only transfers look at the limit. Steps
    // aren't counted: in order `next` grows with them, and a transfer changes `spare` by as much as it changes `next`
    // besides. Only transfers write or read the slot: it is over once `next` has come to its end. What can't be made here
    // (a fault, a transfer in a slot, a target without a record) changes nothing, and ends the loop.
    'turns: loop {
        let op = op_in(ops, first, cur);
        let here = Cursor {
            first,
            len,
            cur,
            next,
            spare,
            slot_end,
            slot,
        };
        match m.execute(op, here) {
            Control::On => {
                cur = next;
                next += 1;
            }
            Control::Past => {
                slot = Slot::Untaken;
                slot_end = next + 2;
                cur = next;
                next += 1;
            }
            Control::To(place) => {
                slot = Slot::Taken;
                slot_end = place + 1;
                spare = spare - next as u64 - 1 + place as u64;
                cur = next;
                next = place;
            }
            Control::At(place) => {
                slot_end = 0;
                spare = spare - next as u64 + place as u64;
                cur = place;
                next = place + 1;
            }
            Control::Stop => break,
        }
    }
    m.stand_at(first, cur, next, slot_at(next, slot_end, slot));
    limit + next as u64 - len as u64 - 1 - spare
}
