// Whether a bus list is accepted: the causes that refuse it (document 01, "How a run can end", and document 02).
#![tactic(auto)]

ghost use Rattle.std.specs.Prelude.{◌≡◌, ◌<◌, ◌^◌, IfOk, MatchResult, true, false};
ghost use Rattle.buslist.specs.Table.{calls, operations};
ghost use Rattle.buslist.specs.Meaning.{call_of};
ghost use Rattle.buslist.specs.Combined.{combined, read_then_write};
ghost use Rattle.buslist.specs.Refusal.{any, too_long, over_limit, too_many_cycles, timeout_out, address_out, empty_blocking, received, all_received, write_after_read, refusal};
ghost use Rattle.acceptance.specs.Refused.{refusal_number};

mod refusal;

use buslist::{BusList, CallEntry, Engine, Kind, OperationEntry};
pub use refusal::Refusal;
use units::{Hertz, Micros, Settings};

// The most bytes that one operation may have.
const LONGEST_OPERATION: u32 = 258;

fn too_long(o: OperationEntry) -> bool
    ensures { result ≡ too_long o }
{
    o.length > LONGEST_OPERATION
}

fn any_too_long(list: &BusList<'_>) -> bool
    ensures { result ≡ any too_long (operations list.now) }
{
    list.operations().any(too_long)
}

// Cause 21.
#[tactic(auto, unfolding(buslist::specs::Refusal::over_limit))]
fn over_limit(list: &BusList<'_>) -> bool
    ensures { result ≡ over_limit list.now }
{
    (list.len() > 32768)
        | (list.call_count() > 256)
        | (list.operation_count() > 1024)
        | any_too_long(list)
}

fn too_many_cycles(timeout: Micros, sysclk: Hertz) -> bool
    ensures { result ≡ too_many_cycles timeout sysclk }
{
    units::to_cycles(timeout, sysclk).0 > 4_294_967_295
}

// Cause 23.
#[tactic(auto, unfolding(buslist::specs::Refusal::timeout_out))]
fn timeout_out(s: Settings) -> bool
    ensures { result ≡ timeout_out s }
{
    too_many_cycles(s.start_timeout, s.sysclk)
        | too_many_cycles(s.addr_timeout, s.sysclk)
        | too_many_cycles(s.data_timeout, s.sysclk)
}

// Cause 24 for one call. The width is the byte of the list.
fn address_out(c: CallEntry) -> bool
    ensures { result ≡ address_out c }
{
    if c.width == 10 {
        return (c.address > 1023) | (c.engine() == Engine::Blocking);
    }
    c.address > 127
}

// Cause 24 for all of them.
fn any_address_out(list: &BusList<'_>) -> bool
    ensures { result ≡ any address_out (calls list.now) }
{
    list.calls().any(address_out)
}

fn empty_blocking(list: &BusList<'_>, c: CallEntry) -> bool
    ensures { result ≡ empty_blocking list.now c }
{
    (c.kind == Kind::BlockingWrite as u8 || c.kind == Kind::BlockingRead as u8)
        && list.operation_at(c.first as u32).length == 0
}

// Cause 25.
fn any_empty_blocking(list: &BusList<'_>) -> bool
    ensures { result ≡ any (empty_blocking list.now) (calls list.now) }
{
    list.calls().any(|c| empty_blocking(list, c))
}

// One line for each of two definitions: one function of both is no plainer.
#[tactic(auto, unfolding(buslist::specs::Refusal::received))]
fn received(o: OperationEntry) -> u64
    ensures number { result ≡ received o }
    ensures fits { result < 2 ^ 32 }
{
    if o.is_read() { o.length as u64 } else { 0 }
}

fn all_received(list: &BusList<'_>) -> u64
    ensures { result ≡ all_received (operations list.now) }
{
    list.operations().map(received).sum()
}

// Whether a read is followed by a write in the combined operations of a call: a write with bytes after a read with bytes.
fn read_then_write(list: &BusList<'_>, c: CallEntry) -> bool
    ensures { result ≡ read_then_write (combined (call_of list.now c).operations) }
{
    let mut read = false;
    for o in list.operations_of(c) {
        let full = !list.is_empty(o);
        let write = o.is_write();
        if full & write & read {
            return true;
        }
        read = read | full & !write;
    }
    false
}

fn write_after_read(list: &BusList<'_>, c: CallEntry) -> bool
    ensures { result ≡ write_after_read list.now c }
{
    c.kind == Kind::BlockingTransaction as u8 && read_then_write(list, c)
}

// Cause 27.
fn any_write_after_read(list: &BusList<'_>) -> bool
    ensures { result ≡ any (write_after_read list.now) (calls list.now) }
{
    list.calls().any(|c| write_after_read(list, c))
}

// The refusal by a cause, where it applies.
fn refuse_if(applies: bool, cause: Refusal) -> Result<(), Refusal>
    ensures { MatchResult result (λ _. applies ≡ false) (λ e. (applies ≡ true) × (e ≡ cause)) }
{
    if applies { Err(cause) } else { Ok(()) }
}

// The causes in rising order, so that a list under several is refused by the lowest.
#[tactic(auto, unfolding(buslist::specs::Refusal::refusal, buslist::specs::Refusal::causes, buslist::specs::Refusal::first_cause))]
fn judge(list: &BusList<'_>, rx_len: usize) -> Result<(), Refusal>
    ensures { refusal_number result ≡ refusal list.now rx_len }
{
    refuse_if(!form::of_the_form(list), Refusal::Form)?;
    refuse_if(over_limit(list), Refusal::Limit)?;
    let settings = list.settings();
    refuse_if(units::frequency_out(settings.frequency), Refusal::Frequency)?;
    refuse_if(timeout_out(settings), Refusal::Timeout)?;
    refuse_if(any_address_out(list), Refusal::Address)?;
    refuse_if(any_empty_blocking(list), Refusal::EmptyBlocking)?;
    refuse_if((rx_len as u64) < all_received(list), Refusal::Room)?;
    refuse_if(any_write_after_read(list), Refusal::WriteAfterRead)
}

// The list that these bytes are, or the first cause that refuses it with a received buffer of rx_len bytes.
pub fn accept(bytes: &[u8], rx_len: usize) -> Result<BusList<'_>, Refusal>
    ensures number { refusal_number result ≡ refusal bytes.now rx_len }
    ensures same { IfOk result (λ list. list ≡ bytes.now) }
{
    let list = BusList::new(bytes);
    judge(&list, rx_len)?;
    Ok(list)
}
