// One sheet joined into another.
ghost use Rattle.std.specs.Prelude.{◌≡◌, ◌+◌, ◌≤◌, true, map, length, is_ok, is_err, IfOk};
ghost use Rattle.bench.specs.Page.{page_of, steps_of};
ghost use Rattle.bench.specs.Replay.{end_answer};
ghost use Rattle.bench.specs.Calls.{answered, after};
ghost use Rattle.bench.specs.Join as join_of;

use crate::fault::BenchFault;
use crate::sheet::{Head, Sheet, Standing};
use crate::state::walk;
use byte_strings::held::Held;
use joins::join::join;
use joins::list::StepList;
use steps::system::StepSystem;

impl Sheet {
    // The steps of the sheet.
    fn steps(&self) -> StepList
        ensures { result ≡ steps_of (page_of self.now) }
    {
        StepList::first(&self.rows, self.head.len)
    }

    // Replays both sheets and compares their starts, and answers the end of this one.
    fn alike<S: StepSystem>(&self, system: &S, other: &Sheet) -> Result<Held<256>, BenchFault>
        ensures { result ≡ join_of.alike (S.transitions system.now) (page_of self.now) (page_of other.now) }
    {
        let end = self.replay(system, self.head.len)?;
        other.replay(system, other.head.len)?;
        if self.start.items() == other.start.items() {
            Ok(end)
        } else {
            Err(BenchFault::StartsDiffer)
        }
    }

    // The steps of the other sheet that survive behind those of this one, which ends in `end`.
    // That both sheets replay is a clause: a fact of each and of the system.
    fn survivors<S: StepSystem>(
        &self,
        system: &S,
        other: &Sheet,
        end: &Held<256>,
    ) -> Result<StepList, BenchFault>
        requires first { is_ok (end_answer (S.transitions system.now) (page_of self.now)) ≡ true }
        requires second { is_ok (end_answer (S.transitions system.now) (page_of other.now)) ≡ true }
        ensures value { result ≡ join_of.surviving (S.transitions system.now) (S.independence system.now) end.now (page_of self.now) (page_of other.now) }
        ensures few { IfOk result (λ added. length added ≤ other.now.head.len) }
        ensures room { IfOk result (λ added. self.now.head.len + length added ≤ 32) }
    {
        // A match and no `map_err`: that the place fits is known of this answer, and not of any that a closure may be given.
        let added = match join(system, &self.steps(), &other.steps()) {
            Ok(added) => added,
            Err(place) => return Err(BenchFault::Conflict(place as u16)),
        };
        let len = self.head.len + added.items().len();
        if len > 32 {
            // It fits, so no `try_from`: both lists have at most 32 steps.
            return Err(BenchFault::TooMany(len as u16));
        }
        walk(system, end, added.items()).map_err(|halt| halt.fault)?;
        Ok(added)
    }

    // Puts steps behind the others.
    fn append(&mut self, added: &StepList)
        requires { self.old.head.len + length added.now ≤ 32 }
        ensures { page_of self.new ≡ join_of.longer (page_of self.old) added.now }
    {
        let head = self.head;
        let steps = added.items();
        let len = head.len + steps.len();
        let rows = &mut self.rows[..];
        rows[head.len..len].copy_from_slice(steps);
        self.head = Head {
            standing: head.standing,
            len,
        };
    }

    // Joins the other sheet, if there is one of that number, into this one: the new length, and how many steps are shared.
    pub fn join<S: StepSystem>(
        &mut self,
        system: &S,
        other: Option<Sheet>,
    ) -> Result<(u8, u8), BenchFault>
        ensures answer { join_of.pair_answer result ≡ answered (join_of.joined (S.transitions system.now) (S.independence system.now) (join_of.named_page other) (page_of self.old)) }
        ensures page { page_of self.new ≡ after (join_of.joined (S.transitions system.now) (S.independence system.now) (join_of.named_page other) (page_of self.old)) (page_of self.old) }
        ensures untouched { is_err result ≡ true → self.new ≡ self.old }
    {
        let Standing::Open = self.head.standing else {
            return Err(BenchFault::WrongStanding(1));
        };
        let other = other.ok_or(BenchFault::NoSheet(2))?;
        if let Standing::Blank = other.head.standing {
            return Err(BenchFault::WrongStanding(2));
        }
        let end = self.alike(system, &other)?;
        let added = self.survivors(system, &other, &end)?;
        let len = self.head.len + added.items().len();
        let shared = other.head.len - added.items().len();
        self.append(&added);
        // They fit, so no `try_from`: there is room for 32 steps.
        Ok((len as u8, shared as u8))
    }
}
