// The calls of an accepted list, in order: each operation goes to its engine, polling or blocking.
#![tactic(auto)]

ghost use Rattle.std.specs.Prelude.{◌≡◌, ◌≤◌, List, ℕ};
ghost use Rattle.buslist.specs.Refusal.{refusal};
ghost use Rattle.buslist.specs.Next.{OfAccepted};
ghost use Rattle.buslist.specs.Meaning.{engine_of, operation_of};
ghost use Rattle.registers.specs.State.{at};
ghost use Rattle.registers.specs.Contract.{Does};
ghost use Rattle.i2c.specs.Polling.{direction};
ghost use Rattle.blocking.specs.Blocking.{operation_steps as blocking_operation};
ghost use Rattle.calls.specs.Calls.{early};
ghost use Rattle.calls.specs.Whole.{entry_steps, polling_entry, moved, Takes, end_steps, EndsCalls, RunsCalls};

use buslist::{Address, BusList, CallEntry, Engine, Joined, Kind, OperationEntry};
use i2c::Previous;
use registers::{Bus, BusError, Progress, Stop};
use units::Setup;

// How the calls of a run ended: the last outcome, and the calls ended well.
#[derive(Clone, Copy)]
pub struct Stopped {
    pub outcome: Result<(), Stop>,
    pub calls: u32,
}

// Whether an empty read of a call is an Overrun before it is prepared.
fn early(kind: u8) -> bool
    ensures { result ≡ early kind }
{
    (kind == Kind::PollingRead as u8) | (kind == Kind::PollingWriteRead as u8)
}

// One operation of a polling call.
fn polling_operation(
    bus: &mut Bus,
    list: &BusList<'_>,
    call: CallEntry,
    o: OperationEntry,
    previous: Previous,
    last: bool,
) -> Result<(), Stop>
    requires { bus.old.progress.got ≤ bus.old.progress.used }
    ensures { Does (polling_entry call previous last (operation_of list.now o)) bus.old bus.new result }
{
    let read = !o.is_write();
    // `read` and `write_read` answer Overrun for an empty buffer before preparing that read.
    if read & early(call.kind) & (o.length == 0) {
        return Err(Stop::Failed(BusError::Overrun));
    }
    let addr = Address::from(call);
    prepare::turn(bus, addr, previous, read)?;
    if read {
        return transfer::read_transfer(bus, last, o.length as usize);
    }
    transfer::write_transfer(bus, last, list.bytes_of(o))
}

// One operation of a blocking call.
// No mark to inline it: its caller would lose its own (docs/DECISIONS.md, "Marks to inline").
fn blocking_operation(
    bus: &mut Bus,
    list: &BusList<'_>,
    call: CallEntry,
    o: OperationEntry,
) -> Result<(), Stop>
    requires { bus.old.progress.got ≤ bus.old.progress.used }
    ensures { Does (blocking_operation bus.old.setup call.address (operation_of list.now o)) bus.old bus.new result }
{
    if o.is_write() {
        return blocking_write::write_without_stop(bus, call.address, list.bytes_of(o));
    }
    blocking::read(bus, call.address, o.length as usize)
}

// One operation of a call. The call is of the list and the operation of the call: a struct of the three is no plainer.
#[inline(always)]
fn operation(
    bus: &mut Bus,
    list: &BusList<'_>,
    call: CallEntry,
    o: OperationEntry,
    previous: Previous,
    last: bool,
) -> Result<(), Stop>
    requires { bus.old.progress.got ≤ bus.old.progress.used }
    ensures { Does (entry_steps bus.old.setup call previous last (operation_of list.now o)) bus.old bus.new result }
{
    match call.engine() {
        Engine::Polling => polling_operation(bus, list, call, o, previous, last),
        Engine::Blocking => blocking_operation(bus, list, call, o),
    }
}

// The direction of an operation, for the one after it. No From: both types are of other crates.
fn direction(o: OperationEntry) -> Previous
    ensures { (l : List ℕ) → result ≡ direction (operation_of l o) }
{
    if o.is_write() {
        return Previous::Write;
    }
    Previous::Read
}

// The direction that the operation after o finds before it. A blocking call passes over an empty one.
fn moved(list: &BusList<'_>, call: CallEntry, o: OperationEntry, previous: Previous) -> Previous
    ensures { result ≡ moved (engine_of call.kind) previous (operation_of list.now o) }
{
    match call.engine() {
        Engine::Polling => direction(o),
        Engine::Blocking if list.is_empty(o) => previous,
        Engine::Blocking => direction(o),
    }
}

// The end of a call: a blocking one closes after a write.
#[inline(always)]
fn end_call(bus: &mut Bus, call: CallEntry, previous: Previous) -> Result<(), Stop>
    ensures { Does (end_steps bus.old.setup (engine_of call.kind) previous) bus.old bus.new result }
{
    match call.engine() {
        Engine::Polling => Ok(()),
        Engine::Blocking => blocking::close_after(bus, previous),
    }
}

// The operation that a call does at j, and the number of the one after it. A call of kind 7 does operations joined.
fn operation_from(list: &BusList<'_>, call: CallEntry, j: u32, end: u32) -> Joined
    requires { OfAccepted list.now j end }
    ensures { Takes list.now call j end result }
{
    if call.kind == Kind::BlockingTransaction as u8 {
        return list.joined_at(j, end);
    }
    Joined {
        operation: list.operation_at(j),
        next: j + 1,
    }
}

// The calls in order, until one does not end well. The bus is made here of its parts: all that takes it is inlined, so that
// it stays in registers.
fn run_on(
    list: &BusList<'_>,
    setup: Setup,
    readings: &[u32],
    log: &mut [u32],
    rx: &mut [u8],
    progress: Progress,
) -> (Progress, Stopped)
    requires { ((x : ℕ) × (refusal list.now x ≡ 0)) × (progress.got ≤ progress.used) }
    ensures { EndsCalls setup list.now (at readings.now log.old rx.old progress) (at readings.now log.new rx.new result.0) result.1 }
{
    let count = list.call_count();
    let mut bus = Bus::from_parts(setup, readings, log, rx, progress);
    let mut outcome = Ok(());
    let mut calls = 0;
    // By number, which is how many calls ended well.
    'calls: for k in 0..count {
        let call = list.call_at(k);
        let end = call.first as u32 + call.count as u32;
        let mut j = call.first as u32;
        let mut previous = Previous::Nothing;
        // By hand: a call of kind 7 goes on past all operations that were joined.
        while j < end {
            let joined = operation_from(list, call, j, end);
            let o = joined.operation;
            outcome = operation(&mut bus, list, call, o, previous, joined.next == end);
            let Ok(()) = outcome else {
                break 'calls;
            };
            previous = moved(list, call, o, previous);
            j = joined.next;
        }
        outcome = end_call(&mut bus, call, previous);
        let Ok(()) = outcome else {
            break 'calls;
        };
        calls = k + 1;
    }
    (bus.progress, Stopped { outcome, calls })
}

// The calls of a list that is accepted with a received buffer of some length.
pub fn run_calls(bus: &mut Bus, list: &BusList<'_>) -> Stopped
    requires { ((x : ℕ) × (refusal list.now x ≡ 0)) × (bus.old.progress.got ≤ bus.old.progress.used) }
    ensures ends { RunsCalls list.now bus.old bus.new result }
    ensures fewer { bus.new.progress.got ≤ bus.new.progress.used }
{
    let (progress, stopped) = run_on(
        list,
        bus.setup,
        bus.readings,
        &mut *bus.log,
        &mut *bus.rx,
        bus.progress,
    );
    bus.progress = progress;
    stopped
}
