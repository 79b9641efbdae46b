// Sending reports again.
ghost use Rattle.std.specs.Prelude.{◌≡◌, ℕ, ◌≤◌, ◌<◌, ◌++◌, ◌+◌, length, take, drop, slice_index, IfOk, Some};
ghost use Rattle.database.specs.States.{state};
ghost use Rattle.retransmit.specs.Resending.{resend_number, resend_text, runs_out, lowered, lowered_for, due_by, due_in, resend_answer, resend_timers, resend_list, Exactly};

use crate::setting::FULL;
use crate::timers::Timers;
use database::Database;
use rows::places::place;
use std::error::Error;
use std::fmt;

// Why nothing is sent again.
#[derive(Clone, Copy, Debug, PartialEq, Eq)]
pub enum ResendFault {
    // The slot is not in 1 to 8.
    Slot = 21,
    // The caller's list is shorter than the count.
    List = 28,
}

impl ResendFault {
    // The refusal's number.
    pub fn number(self) -> u8
        ensures { result ≡ resend_number self }
    {
        self as u8
    }
}

impl fmt::Display for ResendFault {
    ghost output = { λ fault. Some (resend_text fault) };

    fn fmt<W: fmt::Write>(&self, f: &mut fmt::Formatter<W>) -> fmt::Result {
        // The same word as in every crate that refuses: a crate of its own for it would be no plainer.
        write!(f, "refused {}", self.number())
    }
}

impl Error for ResendFault {}

// Whether a timer becomes 0 while the report is in force.
fn runs_out(left: u8, age: u8) -> bool
    ensures { result ≡ runs_out left age }
{
    left == 1 && age > 0
}

// The timer after a resending.
fn lowered(left: u8, age: u8) -> u8
    ensures { result ≡ lowered left age }
{
    if runs_out(left, age) {
        FULL
    } else {
        left.saturating_sub(1)
    }
}

// Whether the report of an origin is to be sent again, by the timers of one slot.
fn is_due(timers: &[u8; 64], database: &Database, origin: u8) -> bool
    ensures { result ≡ due_by (state database.now) timers.now origin }
{
    timers
        .get(place(origin))
        .is_some_and(|left| runs_out(*left, database.age(origin)))
}

// Lists the origins whose report is to be sent again, by the timers of one slot, and answers how many they are.
fn list_due(timers: &[u8; 64], database: &Database, list: &mut [u8]) -> u8
    requires { (state database.now).count ≤ length list.old }
    ensures answer { result ≡ length (due_in (state database.now) timers.now) }
    ensures listed { list.new ≡ due_in (state database.now) timers.now ++ drop result list.old }
{
    let due = (1..65).filter(|origin| is_due(timers, database, *origin));
    // By a counter: through a `zip` with `list.iter_mut()` the proof loses what the list then holds.
    let mut listed = 0;
    for origin in due {
        list[listed] = origin;
        listed += 1;
    }
    listed as u8
}

// Lowers the timers of one slot.
fn count_down(timers: &mut [u8; 64], database: &Database)
    ensures size { length timers.new ≡ 64 }
    ensures each { (j : ℕ) → j < 64 → slice_index timers.new j ≡ lowered_for (state database.now) (j + 1) (slice_index timers.old j) }
{
    // The number from the place: through a `zip` with `iter_mut()` the proof loses what the timers then hold.
    for (origin, timer) in timers.iter_mut().enumerate() {
        *timer = lowered(*timer, database.age(origin as u8 + 1));
    }
}

impl Timers {
    // Resends on a slot: the timers that run on it come one nearer to 0. Where one runs out and the report is still in force, it starts
    // anew and the origin goes into the list, the lowest first. Answers how many; what the list holds behind them stays. A refusal changes nothing.
    // A count and no slice, since the promise is of the whole list, which the caller keeps.
    pub fn resend(
        &mut self,
        database: &Database,
        slot: u8,
        list: &mut [u8],
    ) -> Result<u8, ResendFault>
        ensures answer { result ≡ resend_answer (state database.now) slot self.old.left list.old }
        ensures timers { self.new.left ≡ resend_timers (state database.now) slot self.old.left list.old }
        ensures listed { list.new ≡ resend_list (state database.now) slot self.old.left list.old }
        ensures exactly { IfOk result (λ n. Exactly (state database.now) slot self.old.left (take n list.new)) }
    {
        let place = place(slot);
        let timers = self.left.get(place).ok_or(ResendFault::Slot)?;
        if list.len() < usize::from(database.count()) {
            return Err(ResendFault::List);
        }
        let listed = list_due(timers, database, list);
        count_down(&mut self.left[place], database);
        Ok(listed)
    }
}
