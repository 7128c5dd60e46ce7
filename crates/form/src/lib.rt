// Whether bytes are a bus list by their form (document 01, "Bus list"): cause 20.
#![tactic(auto)]

ghost use Rattle.std.specs.Prelude.{◌≡◌};
ghost use Rattle.buslist.specs.Table.{operations_of, calls, operations, data_bytes};
ghost use Rattle.buslist.specs.Kind.{kind_number};
ghost use Rattle.buslist.specs.Form.{header_right, written, operation_right, operations_right, kind_right, call_right, calls_right, of_the_form};

use buslist::{BusList, CallEntry, Kind, OperationEntry};
use units::Mode;

#[tactic(auto, unfolding(buslist::specs::Form::header_right))]
fn header_right(list: &BusList<'_>) -> bool
    ensures { result ≡ header_right list.now }
{
    let calls = list.call_count() as usize;
    let operations = list.operation_count() as usize;
    let start = list.data_offset() as usize;
    (64 <= list.len())
        & (list.call_offset() == 64)
        & (list.operation_offset() as usize == 64 + 8 * calls)
        & (start == 64 + 8 * calls + 8 * operations)
        & Mode::try_from(list.word_at(32)).is_ok()
        & (list.word_at(44) <= 255)
        & (list.word_at(56) == 0)
        & (list.word_at(60) == 0)
        & (list.len() == start + list.data_bytes() as usize)
}

// One line for each of two definitions: one function of both is no plainer.
#[tactic(auto, unfolding(buslist::specs::Form::written))]
fn written(o: OperationEntry) -> u64
    ensures { result ≡ written o }
{
    if o.is_write() { o.length as u64 } else { 0 }
}

#[tactic(auto, unfolding(buslist::specs::Form::operation_right))]
fn operation_right(sum: u64, o: OperationEntry) -> bool
    ensures { result ≡ operation_right sum o }
{
    let offset = if o.is_write() { sum } else { 0 };
    (o.reserved == 0) & (o.is_write() | o.is_read()) & (o.offset as u64 == offset)
}

fn operations_right(list: &BusList<'_>) -> bool
    ensures { result ≡ operations_right (data_bytes list.now) 0 (operations list.now) }
{
    let mut sum = 0;
    for o in list.operations() {
        if !operation_right(sum, o) {
            return false;
        }
        sum += written(o);
    }
    sum == list.data_bytes() as u64
}

// Whether a call has the operations of its kind. A second one is read only where there are two.
fn operations_fit(list: &BusList<'_>, c: CallEntry, kind: Kind) -> bool
    ensures { result ≡ kind_right (kind_number kind) (operations_of list.now c) }
{
    let first = list.operation_at(c.first as u32);
    match kind {
        Kind::PollingWrite | Kind::BlockingWrite => (c.count == 1) & first.is_write(),
        Kind::PollingRead | Kind::BlockingRead => (c.count == 1) & first.is_read(),
        Kind::PollingWriteRead | Kind::BlockingWriteRead => {
            c.count == 2 && first.is_write() & list.operation_at(c.first as u32 + 1).is_read()
        }
        Kind::PollingTransaction | Kind::BlockingTransaction => true,
    }
}

#[tactic(auto, using(buslist::proofs::Accept::no_kind))]
fn kind_right(list: &BusList<'_>, c: CallEntry) -> bool
    ensures { result ≡ kind_right c.kind (operations_of list.now c) }
{
    match Kind::try_from(c.kind) {
        Ok(kind) => operations_fit(list, c, kind),
        Err(_) => false,
    }
}

// The width is the byte of the list, which may be none.
#[tactic(auto, unfolding(buslist::specs::Form::call_right))]
fn call_right(list: &BusList<'_>, sum: u64, c: CallEntry) -> bool
    ensures { result ≡ call_right list.now sum c }
{
    c.first as u64 == sum && (c.width == 7 || c.width == 10) && kind_right(list, c)
}

fn calls_right(list: &BusList<'_>) -> bool
    ensures { result ≡ calls_right list.now 0 (calls list.now) }
{
    let mut sum = 0;
    for c in list.calls() {
        if !call_right(list, sum, c) {
            return false;
        }
        sum += c.count as u64;
    }
    sum == list.operation_count() as u64
}

// The header first: it bounds both tables by the list's length, so that no list costs more than its bytes.
#[tactic(auto, unfolding(buslist::specs::Form::of_the_form))]
pub fn of_the_form(list: &BusList<'_>) -> bool
    ensures { result ≡ of_the_form list.now }
{
    header_right(list) && operations_right(list) && calls_right(list)
}
