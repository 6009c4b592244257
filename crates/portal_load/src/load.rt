//! Loading a CSV into a table: the call that makes the table, and an insert for each piece of rows.
ghost use Rattle.std.specs.Prelude.{◌≡◌, ◌≢◌, ◌⊎◌, ◌↔◌, ◌<◌, ◌≤◌, ◌^◌, ℕ, List, [], ◌∷◌, length, true, false, codes};
ghost use Rattle.std.specs.Prelude.{Some, None, Ok, Err, IfSome, IfOk, IfErr, OnOk, MatchResult, option_map};
ghost use Rattle.std.specs.Prelude.{string_bytes};
ghost use Rattle.portal_base.specs.Json.{json_reading, json_text};
ghost use Rattle.portal_base.specs.Outside.{Gives, IsAtEnd, Rose};
ghost use Rattle.portal_base.specs.declared.json_value.Json.{Json};
ghost use Rattle.table_schema.specs.Keys.{bytes_reading, schema_reading};
ghost use Rattle.typed_csv.specs.Messages.{load_fault_text};
ghost use Rattle.row_inserts.specs.InsertsValue.{IsGiven};
ghost use Rattle.row_inserts.specs.Inserts.{Pieces, before, inserts_of, no_pieces};
ghost use Rattle.portal_serve.specs.Run.{device_trace, with_input, GaveTooMuch};
ghost use Rattle.portal_serve.specs.Stage.{AreSameLoans, trace_of};
ghost use Rattle.portal_load.specs.Load.{Loads, LoadsWith, ReportsSchema, call_of, create_call, load_task};
ghost use Rattle.portal_load.specs.Load.{schema_text};
ghost use Rattle.portal_load.specs.Progress.{CallsEnd, InsertsEnd, MakesOn, StopsReading, inserts_for};
ghost use Rattle.portal_load.specs.Progress.{pieces_until_fault};
ghost use Rattle.portal_load.specs.Stop.{fault_for_stop, status_for_load};

use crate::stop::{CallFault, LoadStop};
use portal_base::caller::Caller;
use portal_base::copy::TryClone;
use portal_base::dictionary::Value;
use portal_base::json_value::{Json, JsonFault};
use portal_base::lent::Lent;
use portal_base::outside::{Clock, Nonces, Sink, Source};
use portal_base::text::Text;
use portal_core::portal::Portal;
use portal_keeper::keeper::Keeper;
use portal_serve::calls::{CallStop, make_call};
use portal_serve::script::ScriptCall;
use portal_serve::stage::Stage;
use portal_status::status::Status;
use row_inserts::{Insert, Inserts};
use std::alloc::{AllocError, Global};
use table_schema::{Schema, SchemaFault};
use typed_csv::LoadFault;

/// Who loads, and the name or id of the resource.
#[derive(Drop)]
struct Task<'a> {
    caller: &'a Caller,
    resource: &'a str,
}

/// A schema's JSON value, and the schema.
#[derive(Drop)]
struct ReadSchema {
    json: Json,
    schema: Schema,
}

/// The status for the end of a load.
fn status_of_end(end: Result<(), LoadStop>) -> Status
    ensures { result ≡ status_for_load end }
{
    match end {
        Ok(()) => Status::Done,
        Err(LoadStop::ReadFault) => Status::ReadFault,
        Err(LoadStop::WriteFault) => Status::WriteFault,
        Err(LoadStop::KeeperFault) => Status::KeeperFault,
        Err(LoadStop::OutOfMemory) => Status::OutOfMemory,
        Err(LoadStop::DataFault(text)) => Status::DataFault(text),
        Err(LoadStop::Refused) => Status::Refused,
    }
}

/// The fault of a call whose line was not written whole.
fn fault_of_stop(stop: CallStop) -> CallFault
    ensures { result ≡ fault_for_stop stop }
{
    match stop {
        CallStop::WriteFault => CallFault::WriteFault,
        CallStop::KeeperFault => CallFault::KeeperFault,
        CallStop::OutOfMemory => CallFault::OutOfMemory,
    }
}

/// A load stops at a fault of the data with this text.
fn data_fault(text: Result<String, AllocError>) -> LoadStop
    ensures { MatchResult text (λ text. result ≡ LoadStop.DataFault (string_bytes text))
        (λ _. result ≡ LoadStop.OutOfMemory) }
{
    match text {
        Ok(text) => LoadStop::DataFault(Text::from(text)),
        Err(_refused) => LoadStop::OutOfMemory,
    }
}

/// A load stops at a schema's fault.
fn stop_of_schema(alloc: Global, fault: &SchemaFault) -> LoadStop
    ensures reported { (result ≡ LoadStop.DataFault (schema_text fault.now)) ⊎ (result ≡ LoadStop.OutOfMemory) }
    ensures memory { fault.now ≡ SchemaFault.OutOfMemory → result ≡ LoadStop.OutOfMemory }
{
    match fault {
        SchemaFault::OutOfMemory => LoadStop::OutOfMemory,
        _ => data_fault(format!(in alloc; "schema: {fault}")),
    }
}

/// A load stops at a fault of the CSV. An input that gave its last insert isn't asked for another.
fn stop_of_csv(alloc: Global, fault: &LoadFault) -> LoadStop
    ensures read_fault { (fault.now ≡ LoadFault.ReadFault) ↔ (result ≡ LoadStop.ReadFault) }
    ensures too_long { (fault.now ≡ LoadFault.TooLong) ↔ (result ≡ LoadStop.DataFault (codes "input too long")) }
    ensures reported { result ≢ LoadStop.ReadFault
        → (result ≡ LoadStop.DataFault (load_fault_text fault.now)) ⊎ (result ≡ LoadStop.OutOfMemory) }
    ensures memory { fault.now ≡ LoadFault.OutOfMemory → result ≡ LoadStop.OutOfMemory }
{
    match fault {
        LoadFault::ReadFault => LoadStop::ReadFault,
        LoadFault::TooLong => LoadStop::DataFault(Text::from_static("input too long")),
        LoadFault::OutOfMemory => LoadStop::OutOfMemory,
        _ => data_fault(format!(in alloc; "{fault}")),
    }
}

/// Reads a schema (Table Schema v1).
fn read_schema(alloc: Global, bytes: &[u8]) -> Result<ReadSchema, SchemaFault>
    ensures json { IfOk result (λ read. json_reading bytes.now ≡ Ok read.json) }
    ensures schema { IfOk result (λ read. schema_reading read.json ≡ Ok read.schema) }
    ensures fault { IfErr result
        (λ fault. (fault ≡ SchemaFault.OutOfMemory) ⊎ (bytes_reading bytes.now ≡ Err fault)) }
{
    let json = match Json::read(alloc, bytes) {
        Ok(json) => json,
        Err(JsonFault::OutOfMemory) => return Err(SchemaFault::OutOfMemory),
        Err(_) => return Err(SchemaFault::NotJson),
    };
    let schema = Schema::of_json(alloc, &json)?;
    Ok(ReadSchema { json, schema })
}

/// Plays a call of the task's caller. `size` is the length of its body's compact text. The fault is `Refused` if the
/// reply isn't 200.
fn play_call<P: Keeper, O: Sink, C: Clock, N: Nonces>(
    alloc: Global,
    portal: &mut Portal<P>,
    task: &Task<'_>,
    action: &'static str,
    body: Json,
    size: usize,
    stage: &mut Stage<'_, '_, '_, O, C, N>,
) -> Result<(), CallFault>
    requires { size ≡ length (json_text body) }
    ensures made { OnOk result (MakesOn portal.old.state (call_of task.now.caller.now action.now body ∷ []) portal.new.state
        (trace_of O.taken C.given N.given stage.old) (trace_of O.taken C.given N.given stage.new)) }
    ensures ended { IfErr result (CallsEnd portal.old.state (call_of task.now.caller.now action.now body ∷ []) portal.new.state
        (trace_of O.taken C.given N.given stage.old) (trace_of O.taken C.given N.given stage.new)) }
    ensures write_fault { result ≡ Err CallFault.WriteFault
        → Rose (O.faults stage.old.output.now) (O.faults stage.new.output.now) }
    ensures counts { O.faults stage.old.output.now ≤ O.faults stage.new.output.now }
    ensures loans { AreSameLoans stage.old stage.new }
    ensures keeper_fault { result ≡ Err CallFault.KeeperFault
        → Rose (P.faults portal.old.keeper) (P.faults portal.new.keeper) }
    ensures keeper_counts { P.faults portal.old.keeper ≤ P.faults portal.new.keeper }
{
    let call = ScriptCall {
        caller: task.caller.try_clone(alloc)?,
        action: Text::from_static(action),
        body,
    };
    let status = match make_call(alloc, portal, call, size as u64, stage) {
        Ok(status) => status,
        Err(stop) => return Err(fault_of_stop(stop)),
    };
    match status {
        200 => Ok(()),
        _ => Err(CallFault::Refused),
    }
}

/// Plays the call that makes the table.
fn play_create<P: Keeper, O: Sink, C: Clock, N: Nonces>(
    alloc: Global,
    portal: &mut Portal<P>,
    task: &Task<'_>,
    schema: Json,
    stage: &mut Stage<'_, '_, '_, O, C, N>,
) -> Result<(), CallFault>
    ensures made { OnOk result (MakesOn portal.old.state
        (create_call task.now.caller.now task.now.resource.now schema ∷ []) portal.new.state
        (trace_of O.taken C.given N.given stage.old) (trace_of O.taken C.given N.given stage.new)) }
    ensures ended { IfErr result (CallsEnd portal.old.state
        (create_call task.now.caller.now task.now.resource.now schema ∷ []) portal.new.state
        (trace_of O.taken C.given N.given stage.old) (trace_of O.taken C.given N.given stage.new)) }
    ensures write_fault { result ≡ Err CallFault.WriteFault
        → Rose (O.faults stage.old.output.now) (O.faults stage.new.output.now) }
    ensures counts { O.faults stage.old.output.now ≤ O.faults stage.new.output.now }
    ensures loans { AreSameLoans stage.old stage.new }
    ensures keeper_fault { result ≡ Err CallFault.KeeperFault
        → Rose (P.faults portal.old.keeper) (P.faults portal.new.keeper) }
    ensures keeper_counts { P.faults portal.old.keeper ≤ P.faults portal.new.keeper }
{
    let body = Json::dictionary(
        alloc,
        [
            ("resource_id", Value::Str(task.resource)),
            ("schema", Value::Json(schema)),
        ],
    )?;
    let size = body.text(alloc)?.len();
    play_call(alloc, portal, task, "datastore_create", body, size, stage)
}

/// Plays the next insert, and returns whether there was one. If it is refused, no further one is read.
fn play_insert<P: Keeper, S: Source, O: Sink, C: Clock, N: Nonces>(
    alloc: Global,
    portal: &mut Portal<P>,
    task: &Task<'_>,
    inserts: &mut Inserts<S>,
    stage: &mut Stage<'_, '_, '_, O, C, N>,
) -> Result<bool, LoadStop>
    requires resource { inserts.old.resource ≡ task.now.resource.now }
    requires goes_on { inserts.old.is_spent ≡ false }
    ensures resource { inserts.new.resource ≡ inserts.old.resource }
    ensures goes_on { OnOk result (inserts.new.is_spent ≡ false) }
    ensures more { result ≡ Ok true → (piece : List Json)
        × (inserts.old.remaining ≡ option_map (before piece) inserts.new.remaining)
        × MakesOn portal.old.state (inserts_for task.now (piece ∷ [])) portal.new.state
        (trace_of O.taken C.given N.given stage.old) (trace_of O.taken C.given N.given stage.new) }
    ensures end { result ≡ Ok false → IfSome inserts.old.remaining (λ pieces. pieces ≡ no_pieces)
        × IsAtEnd (S.to_come inserts.new.source) × (portal.new.state ≡ portal.old.state) × (stage.new ≡ stage.old) }
    ensures ended { IfErr result (λ stop. (pieces : Pieces) → inserts.old.remaining ≡ Some pieces
        → InsertsEnd task.now portal.old.state pieces portal.new.state
        (trace_of O.taken C.given N.given stage.old) (trace_of O.taken C.given N.given stage.new) stop) }
    ensures refused { result ≡ Err LoadStop.Refused → StopsReading task.now portal.old.state inserts.old.remaining
        portal.new.state inserts.new.remaining
        (trace_of O.taken C.given N.given stage.old) (trace_of O.taken C.given N.given stage.new) }
    ensures received { IsGiven S.to_come inserts.old inserts.new }
    ensures read_fault { result ≡ Err LoadStop.ReadFault
        → Rose (S.faults inserts.old.source) (S.faults inserts.new.source) }
    ensures reads { S.faults inserts.old.source ≤ S.faults inserts.new.source }
    ensures too_long { (result ≡ Err (LoadStop.DataFault (codes "input too long")))
        ↔ (2 ^ 40 < inserts.new.given) }
    ensures loan { S.loan inserts.new.source ≡ S.loan inserts.old.source }
    ensures write_fault { result ≡ Err LoadStop.WriteFault
        → Rose (O.faults stage.old.output.now) (O.faults stage.new.output.now) }
    ensures counts { O.faults stage.old.output.now ≤ O.faults stage.new.output.now }
    ensures loans { AreSameLoans stage.old stage.new }
    ensures keeper_fault { result ≡ Err LoadStop.KeeperFault
        → Rose (P.faults portal.old.keeper) (P.faults portal.new.keeper) }
    ensures keeper_counts { P.faults portal.old.keeper ≤ P.faults portal.new.keeper }
{
    match inserts.next() {
        Ok(Some(Insert { body, size })) => {
            play_call(alloc, portal, task, "datastore_upsert", body, size, stage)?;
            Ok(true)
        }
        Ok(None) => Ok(false),
        Err(fault) => Err(stop_of_csv(alloc, &fault)),
    }
}

/// Plays all remaining inserts, up to the first that isn't granted. After a refused one no further one is read.
fn play_inserts<P: Keeper, S: Source, O: Sink, C: Clock, N: Nonces>(
    alloc: Global,
    portal: &mut Portal<P>,
    task: &Task<'_>,
    inserts: &mut Inserts<S>,
    stage: &mut Stage<'_, '_, '_, O, C, N>,
) -> Result<(), LoadStop>
    requires resource { inserts.old.resource ≡ task.now.resource.now }
    requires goes_on { inserts.old.is_spent ≡ false }
    ensures done { OnOk result ((pieces : Pieces) → inserts.old.remaining ≡ Some pieces → (pieces.fault ≡ None)
        × MakesOn portal.old.state (inserts_for task.now pieces.pieces) portal.new.state
        (trace_of O.taken C.given N.given stage.old) (trace_of O.taken C.given N.given stage.new)) }
    ensures end { OnOk result (IsAtEnd (S.to_come inserts.new.source)) }
    ensures ended { IfErr result (λ stop. (pieces : Pieces) → inserts.old.remaining ≡ Some pieces
        → InsertsEnd task.now portal.old.state pieces portal.new.state
        (trace_of O.taken C.given N.given stage.old) (trace_of O.taken C.given N.given stage.new) stop) }
    ensures refused { result ≡ Err LoadStop.Refused → StopsReading task.now portal.old.state inserts.old.remaining
        portal.new.state inserts.new.remaining
        (trace_of O.taken C.given N.given stage.old) (trace_of O.taken C.given N.given stage.new) }
    ensures received { IsGiven S.to_come inserts.old inserts.new }
    ensures read_fault { result ≡ Err LoadStop.ReadFault
        → Rose (S.faults inserts.old.source) (S.faults inserts.new.source) }
    ensures reads { S.faults inserts.old.source ≤ S.faults inserts.new.source }
    ensures too_long { (result ≡ Err (LoadStop.DataFault (codes "input too long")))
        ↔ (2 ^ 40 < inserts.new.given) }
    ensures loan { S.loan inserts.new.source ≡ S.loan inserts.old.source }
    ensures write_fault { result ≡ Err LoadStop.WriteFault
        → Rose (O.faults stage.old.output.now) (O.faults stage.new.output.now) }
    ensures counts { O.faults stage.old.output.now ≤ O.faults stage.new.output.now }
    ensures loans { AreSameLoans stage.old stage.new }
    ensures keeper_fault { result ≡ Err LoadStop.KeeperFault
        → Rose (P.faults portal.old.keeper) (P.faults portal.new.keeper) }
    ensures keeper_counts { P.faults portal.old.keeper ≤ P.faults portal.new.keeper }
{
    for _ in 0..u64::MAX {
        match play_insert(alloc, portal, task, inserts, stage) {
            Ok(true) => {}
            Ok(false) => return Ok(()),
            Err(stop) => return Err(stop),
        }
    }
    // The input had more inserts than a `u64` counts, which is impossible in practice.
    Err(LoadStop::OutOfMemory)
}

/// Plays the inserts of the rows of a source, and returns the source as far as it was read. The result is put into
/// `played`. (A contract can only name the end of a loan for a value that a call returns.)
fn play_rows<P: Keeper, S: Source, O: Sink, C: Clock, N: Nonces>(
    alloc: Global,
    portal: &mut Portal<P>,
    task: &Task<'_>,
    schema: Schema,
    source: S,
    stage: &mut Stage<'_, '_, '_, O, C, N>,
    played: &mut Result<(), LoadStop>,
) -> S
    ensures done { OnOk played.new ((whole : List ℕ) → S.to_come source ≡ Some whole
        → ((pieces_until_fault (inserts_of task.now.resource.now schema.fields whole)).fault ≡ None)
        × MakesOn portal.old.state
        (inserts_for task.now (pieces_until_fault
        (inserts_of task.now.resource.now schema.fields whole)).pieces) portal.new.state
        (trace_of O.taken C.given N.given stage.old) (trace_of O.taken C.given N.given stage.new)) }
    ensures ended { IfErr played.new (λ stop. (whole : List ℕ) → S.to_come source ≡ Some whole
        → InsertsEnd task.now portal.old.state (pieces_until_fault
        (inserts_of task.now.resource.now schema.fields whole)) portal.new.state
        (trace_of O.taken C.given N.given stage.old) (trace_of O.taken C.given N.given stage.new) stop) }
    ensures end { OnOk played.new (IsAtEnd (S.to_come result)) }
    ensures received { (bytes : List ℕ) × Gives (S.to_come source) bytes (S.to_come result)
        × ((played.new ≡ Err (LoadStop.DataFault (codes "input too long"))) ↔ (2 ^ 40 < length bytes)) }
    ensures read_fault { played.new ≡ Err LoadStop.ReadFault → Rose (S.faults source) (S.faults result) }
    ensures loan { S.loan result ≡ S.loan source }
    ensures write_fault { played.new ≡ Err LoadStop.WriteFault
        → Rose (O.faults stage.old.output.now) (O.faults stage.new.output.now) }
    ensures counts { O.faults stage.old.output.now ≤ O.faults stage.new.output.now }
    ensures loans { AreSameLoans stage.old stage.new }
    ensures keeper_fault { played.new ≡ Err LoadStop.KeeperFault
        → Rose (P.faults portal.old.keeper) (P.faults portal.new.keeper) }
    ensures keeper_counts { P.faults portal.old.keeper ≤ P.faults portal.new.keeper }
{
    match Inserts::start(alloc, schema, task.resource, source) {
        Ok(mut inserts) => {
            *played = play_inserts(alloc, portal, task, &mut inserts, stage);
            inserts.into_source()
        }
        Err((fault, source)) => {
            *played = Err(stop_of_csv(alloc, &fault));
            source
        }
    }
}

/// Loads the CSV on input by this schema.
fn load_by<P: Keeper, S: Source, O: Sink, C: Clock, N: Nonces>(
    alloc: Global,
    portal: &mut Portal<P>,
    task: &Task<'_>,
    read: ReadSchema,
    input: &mut S,
    stage: &mut Stage<'_, '_, '_, O, C, N>,
) -> Result<(), LoadStop>
    requires { schema_reading read.json ≡ Ok read.schema }
    ensures loads { (schema whole : List ℕ) → json_reading schema ≡ Ok read.json → S.to_come input.old ≡ Some whole
        → Loads (load_task task.now.caller.now schema task.now.resource.now) portal.old.state whole portal.new.state
        (with_input (S.to_come input.old) (trace_of O.taken C.given N.given stage.old))
        (with_input (S.to_come input.new) (trace_of O.taken C.given N.given stage.new)) result }
    ensures read_fault { result ≡ Err LoadStop.ReadFault → Rose (S.faults input.old) (S.faults input.new) }
    ensures too_much { (whole : List ℕ) → S.to_come input.old ≡ Some whole →
        ((result ≡ Err (LoadStop.DataFault (codes "input too long"))) ↔ GaveTooMuch whole (S.to_come input.new)) }
    ensures write_fault { result ≡ Err LoadStop.WriteFault
        → Rose (O.faults stage.old.output.now) (O.faults stage.new.output.now) }
    ensures counts { O.faults stage.old.output.now ≤ O.faults stage.new.output.now }
    ensures loans { AreSameLoans stage.old stage.new }
    ensures keeper_fault { result ≡ Err LoadStop.KeeperFault
        → Rose (P.faults portal.old.keeper) (P.faults portal.new.keeper) }
    ensures keeper_counts { P.faults portal.old.keeper ≤ P.faults portal.new.keeper }
{
    let ReadSchema { json, schema } = read;
    play_create(alloc, portal, task, json, stage)?;
    let mut played = Ok(());
    let _source = play_rows(
        alloc,
        portal,
        task,
        schema,
        Lent::new(input),
        stage,
        &mut played,
    );
    played
}

/// Loads the CSV on input into a new table of the resource with this name or id. `schema` is the bytes of a descriptor
/// (Table Schema v1). The load plays the call that makes the table, and then an insert for each piece of rows, as calls
/// of the caller, and writes a line to output for each call. The first reply other than 200 ends the load, and nothing
/// is read after it. The load holds the records of one piece and the bytes of one read.
///
/// An insert has 500 rows, or fewer if its body would have more than 200,000 bytes. It is played as soon as no further
/// row belongs to it. An insert with a faulty row isn't played.
pub fn load<S: Source, O: Sink, P: Keeper, C: Clock, N: Nonces>(
    alloc: Global,
    portal: &mut Portal<P>,
    caller: &Caller,
    resource: &str,
    schema: &[u8],
    input: &mut S,
    output: &mut O,
    clock: &mut C,
    nonces: &mut N,
) -> Status
    // The status is that of an end of a load. Where input is observable: the calls of the script that were made, by this
    // end, what was written for them, and the state in which they leave the portal.
    ensures loads { LoadsWith (load_task caller.now schema.now resource.now) portal.old.state portal.new.state
        (device_trace (S.to_come input.old) (O.taken output.old) (C.given clock.old) (N.given nonces.old))
        (device_trace (S.to_come input.new) (O.taken output.new) (C.given clock.new) (N.given nonces.new)) result }
    // A fault of the schema is reported before everything else, and leaves the devices as they were.
    ensures schema { ReportsSchema schema.now
        (device_trace (S.to_come input.old) (O.taken output.old) (C.given clock.old) (N.given nonces.old))
        (device_trace (S.to_come input.new) (O.taken output.new) (C.given clock.new) (N.given nonces.new)) result }

    ensures read_fault { result ≡ Status.ReadFault → Rose (S.faults input.old) (S.faults input.new) }
    ensures write_fault { result ≡ Status.WriteFault → Rose (O.faults output.old) (O.faults output.new) }
    ensures too_much { (whole : List ℕ) → S.to_come input.old ≡ Some whole →
        ((result ≡ Status.DataFault (codes "input too long")) ↔ GaveTooMuch whole (S.to_come input.new)) }
    ensures keeper_fault { result ≡ Status.KeeperFault
        → Rose (P.faults portal.old.keeper) (P.faults portal.new.keeper) }
    ensures keeper_counts { P.faults portal.old.keeper ≤ P.faults portal.new.keeper }
{
    let read = match read_schema(alloc, schema) {
        Ok(read) => read,
        Err(fault) => return status_of_end(Err(stop_of_schema(alloc, &fault))),
    };
    let task = Task { caller, resource };
    let mut stage = Stage {
        output,
        clock,
        nonces,
    };
    status_of_end(load_by(alloc, portal, &task, read, input, &mut stage))
}
