//! The portal, and the one step that an event makes.
//!
//! The portal decides a call on its caller's view: the right first, then the rules. Then it prepares all growth, then its
//! keeper changes the rows of the store, and then a commit makes the change: it takes no memory and can't fail.
ghost use Rattle.std.specs.Prelude.{◌≡◌, ◌≢◌, ◌≤◌, List, IsTrue, IfErr, IfOk, IfSome, OnOk, OnErr, IsErrOf};
ghost use Rattle.portal_base.specs.Outside.{Rose};
ghost use Rattle.portal_state.specs.Fit.{IsFit};
ghost use Rattle.portal_state.specs.Parts.{state_of, IsPlanned};
ghost use Rattle.portal_state.specs.Planned.{planned_of};
ghost use Rattle.portal_state.specs.PortalValue.{AreKept};
ghost use Rattle.portal_state.specs.Step.{known_step, planned_outcome};
ghost use Rattle.portal_state.specs.View.{view_of};

mod reading;

use crate::decide::decide;
use crate::opened::opened_parts;
use harvest_sources::Step;
use portal_base::caller::Caller;
use portal_base::copy::TryClone;
use portal_base::json_value::Json;
use portal_base::text::Text;
use portal_calls::answer::Answer;
use portal_calls::call::{Call, Request};
use portal_events::{Event, Refusal, Reply, refusal_of};
use portal_keeper::keeper::Keeper;
use portal_state::act_fault::ActFault;
use portal_state::change::Plan;
pub use portal_state::opening::{OpenFault, Opening, Role0};
use portal_state::parts::Parts;
use std::alloc::{AllocError, Global};
use std::marker::Model;

/// The portal over a keeper of its rows. Its value in contracts is its state, which is valid, and the keeper. Where the
/// rows of the keeper are observable, they are those of the state.
#[derive(Drop)]
pub struct Portal<K: Keeper> {
    alloc: Global,
    parts: Parts,
    keeper: K,
}

impl<K: Keeper> Model for Portal<K> {
    ghost use Rattle.portal_state.specs.Parts.{state_of};
    ghost use Rattle.portal_state.specs.PortalValue.{AreKept, PortalValue};

    ghost Value = { PortalValue K };

    ghost view = { λ p. record { state = state_of p.parts; keeper = p.keeper } };

    ghost invariant = { λ p. AreKept (K.rows p.keeper) p.parts };
}

impl<K: Keeper> Portal<K> {
    ghost use Rattle.portal_keeper.specs.Keeping.{Shows};
    ghost use Rattle.portal_keeper.specs.declared.row.KeptRow.{KeptRow};
    ghost use Rattle.portal_state.specs.KeptRows.{kept_rows};
    ghost use Rattle.portal_state.specs.Known.{is_known};
    ghost use Rattle.portal_state.specs.Opened.{is_opening};
    ghost use Rattle.portal_state.specs.PortalValue.{AreOfNoState, IsOpenedOver};
    ghost use Rattle.portal_state.specs.Step.{step_of, call_step, harvest_step};
    ghost use Rattle.portal_state.specs.Valid.{IsValid};

    /// Opens a portal over a keeper. If the keeper has no rows, the portal has the users, organizations and roles of the
    /// opening, and no dataset, and the keeper gets its rows. Else the portal has the state whose rows they are, with the
    /// users of the opening. A fault comes with the keeper.
    ///
    /// `BadRows` comes with the rows, only if they are those of no state; over such rows no portal is opened. `Keeper` comes
    /// only where the keeper's count of faults rose.
    pub fn open(alloc: Global, keeper: K, opening: &Opening) -> Result<Portal<K>, (OpenFault, K)>
        requires { IsTrue (is_opening opening.now) }
        ensures opened { IfOk result
            (λ portal. IfSome (K.rows keeper) (λ rows. IsOpenedOver opening.now rows portal.state)) }
        ensures valid { IfOk result (λ portal. IsValid portal.state) }
        ensures counts { IfOk result (λ portal. K.faults keeper ≤ K.faults portal.keeper) }
        ensures failed { IfErr result
            (λ back. back.0 ≡ OpenFault.Keeper → Rose (K.faults keeper) (K.faults back.1)) }
        ensures bad_rows { IfErr result (λ back. (rows : List KeptRow) → back.0 ≡ OpenFault.BadRows rows →
            Shows (K.rows keeper) rows × Shows (K.rows back.1) rows × AreOfNoState rows) }
        ensures kept { IfErr result
            (λ back. IfSome (K.rows keeper) (λ rows. Shows (K.rows back.1) rows)) }
        ensures counted { IfErr result (λ back. K.faults keeper ≤ K.faults back.1) }
    {
        let mut keeper = keeper;
        match opened_parts(alloc, &mut keeper, opening) {
            Ok(parts) => Ok(Portal {
                alloc,
                parts,
                keeper,
            }),
            Err(fault) => Err((fault, keeper)),
        }
    }

    /// Makes the step of one event. The reply and the state after it are the step's. Where memory runs out, the reply
    /// is `OutOfMemory`, and where the keeper fails, it is `KeeperFault`; then nothing changes. The keeper is called for an
    /// accepted change alone, before the change is made.
    #[tactic(auto, using(portal_state::proofs::Settling::step_there, portal_state::proofs::Settling::step_kept))]
    pub fn act(&mut self, event: &Event) -> Reply
        ensures reply { result ≢ Reply.Refused Refusal.KeeperFault → result ≢ Reply.Refused Refusal.OutOfMemory
            → result ≡ (step_of self.old.state event.now).reply }
        ensures state { result ≢ Reply.Refused Refusal.KeeperFault → result ≢ Reply.Refused Refusal.OutOfMemory
            → self.new.state ≡ (step_of self.old.state event.now).core }
        ensures failed { result ≡ Reply.Refused Refusal.KeeperFault → self.new.state ≡ self.old.state }
        ensures memory { result ≡ Reply.Refused Refusal.OutOfMemory → self.new.state ≡ self.old.state }
        ensures fault { result ≡ Reply.Refused Refusal.KeeperFault
            → Rose (K.faults self.old.keeper) (K.faults self.new.keeper) }
        ensures counts { K.faults self.old.keeper ≤ K.faults self.new.keeper }
    {
        match self.act_on(event) {
            Ok(reply) => reply,
            Err(ActFault::Keeper) => Reply::Refused(Refusal::KeeperFault),
            Err(ActFault::OutOfMemory) => Reply::Refused(Refusal::OutOfMemory),
        }
    }

    /// The keeper. Where its rows are observable, they are those of the state.
    pub fn into_keeper(self) -> K
        ensures keeper { result ≡ self.keeper }
        ensures rows { Shows (K.rows result) (kept_rows self.state) }
    {
        self.keeper
    }

    /// Makes the step of an event: of a call, or of a harvest.
    fn act_on(&mut self, event: &Event) -> Result<Reply, ActFault>
        ensures reply { IfOk result (λ reply. reply ≡ (step_of self.old.state event.now).reply) }
        ensures state { OnOk result (self.new.state ≡ (step_of self.old.state event.now).core) }
        ensures kept { OnErr result (self.new.state ≡ self.old.state) }
        ensures fault { IsErrOf result ActFault.Keeper → Rose (K.faults self.old.keeper) (K.faults self.new.keeper) }
        ensures counts { K.faults self.old.keeper ≤ K.faults self.new.keeper }
    {
        match event {
            Event::Call(call) => self.act_on_call(call),
            Event::Harvest(step) => self.act_on_step(step),
        }
    }

    /// Makes the step of a harvest.
    fn act_on_step(&mut self, step: &Step) -> Result<Reply, ActFault>
        ensures reply { IfOk result (λ reply. reply ≡ (harvest_step self.old.state step.now).reply) }
        ensures state { OnOk result (self.new.state ≡ (harvest_step self.old.state step.now).core) }
        ensures kept { OnErr result (self.new.state ≡ self.old.state) }
        ensures fault { IsErrOf result ActFault.Keeper → Rose (K.faults self.old.keeper) (K.faults self.new.keeper) }
        ensures counts { K.faults self.old.keeper ≤ K.faults self.new.keeper }
    {
        let reply = self.parts.step(self.alloc, &mut self.keeper, step)?;
        Ok(Reply::Harvest(reply))
    }

    /// Makes the step of a call. A caller whom no user has is nobody.
    fn act_on_call(&mut self, call: &Call) -> Result<Reply, ActFault>
        ensures reply { IfOk result (λ reply. reply ≡ (call_step self.old.state call.now).reply) }
        ensures state { OnOk result (self.new.state ≡ (call_step self.old.state call.now).core) }
        ensures kept { OnErr result (self.new.state ≡ self.old.state) }
        ensures fault { IsErrOf result ActFault.Keeper → Rose (K.faults self.old.keeper) (K.faults self.new.keeper) }
        ensures counts { K.faults self.old.keeper ≤ K.faults self.new.keeper }
    {
        if self.is_known(&call.caller) {
            return self.act_on_known(call);
        }
        let call = by_nobody(self.alloc, call)?;
        self.act_on_known(&call)
    }

    /// Whether the caller is nobody, or a user of this portal.
    pub fn is_known(&self, caller: &Caller) -> bool
        ensures { result ≡ is_known self.now.state.people caller.now }
    {
        match caller {
            Caller::Anonymous => true,
            Caller::Named(user) => self.parts.people.has_user(user.as_str()),
        }
    }

    /// Makes the step of a call whose caller is known.
    fn act_on_known(&mut self, call: &Call) -> Result<Reply, ActFault>
        ensures reply { IfOk result (λ reply. reply ≡ (known_step self.old.state call.now).reply) }
        ensures state { OnOk result (self.new.state ≡ (known_step self.old.state call.now).core) }
        ensures kept { OnErr result (self.new.state ≡ self.old.state) }
        ensures fault { IsErrOf result ActFault.Keeper → Rose (K.faults self.old.keeper) (K.faults self.new.keeper) }
        ensures counts { K.faults self.old.keeper ≤ K.faults self.new.keeper }
    {
        act_on_parts(self.alloc, &mut self.parts, &mut self.keeper, call)
    }
}

/// The same call, made by nobody.
fn by_nobody(alloc: Global, call: &Call) -> Result<Call, AllocError>
    ensures { IfOk result (λ copy. copy ≡ record call.now { caller = Caller.Anonymous }) }
{
    let body = call.request.body.try_clone(alloc)?;
    Ok(Call {
        caller: Caller::Anonymous,
        request: Request {
            action: call.request.action,
            body,
        },
        size: call.size,
        moment: call.moment,
        nonce: call.nonce,
    })
}

/// Makes the step of a call whose caller is known: decides it, and makes the change of an accepted one.
#[tactic(auto, using(portal_state::proofs::Answering::accepted_fit, portal_state::proofs::StoreLemmas::decided_kept))]
fn act_on_parts<K: Keeper>(
    alloc: Global,
    parts: &mut Parts,
    keeper: &mut K,
    call: &Call,
) -> Result<Reply, ActFault>
    requires { AreKept (K.rows keeper.old) parts.old }
    ensures parts { AreKept (K.rows keeper.new) parts.new }
    ensures reply { IfOk result (λ reply. reply ≡ (known_step (state_of parts.old) call.now).reply) }
    ensures state { OnOk result (state_of parts.new ≡ (known_step (state_of parts.old) call.now).core) }
    ensures kept { OnErr result (state_of parts.new ≡ state_of parts.old) }
    ensures fault { IsErrOf result ActFault.Keeper → Rose (K.faults keeper.old) (K.faults keeper.new) }
    ensures counts { K.faults keeper.old ≤ K.faults keeper.new }
{
    match decide(alloc, parts, call)? {
        Answer::Shown(json) => Ok(Reply::Shown(json)),
        Answer::Refused(denial) => Ok(Reply::Refused(refusal_of(denial))),
        Answer::Accepted(json, plan) => apply_if_unused(alloc, parts, keeper, call, json, plan),
    }
}

/// Makes an accepted change, where nothing that it claims is in use, else refuses it.
#[tactic(auto, using(portal_state::proofs::Settling::outcome_unused))]
fn apply_if_unused<K: Keeper>(
    alloc: Global,
    parts: &mut Parts,
    keeper: &mut K,
    call: &Call,
    json: Json,
    plan: Plan,
) -> Result<Reply, ActFault>
    requires kept { AreKept (K.rows keeper.old) parts.old }
    requires fit { IsFit call.now (view_of call.now.caller (state_of parts.old)) (planned_of plan) }
    requires planned { IsPlanned plan parts.old }
    ensures parts { AreKept (K.rows keeper.new) parts.new }
    ensures reply { IfOk result (λ reply.
        reply ≡ (planned_outcome json (planned_of plan) call.now (state_of parts.old)).reply) }
    ensures state { OnOk result
        (state_of parts.new ≡ (planned_outcome json (planned_of plan) call.now (state_of parts.old)).core) }
    ensures kept { OnErr result (state_of parts.new ≡ state_of parts.old) }
    ensures fault { IsErrOf result ActFault.Keeper → Rose (K.faults keeper.old) (K.faults keeper.new) }
    ensures counts { K.faults keeper.old ≤ K.faults keeper.new }
{
    if let Some(key) = parts.key_in_use(&plan) {
        return Ok(Reply::Refused(Refusal::NameInUse(Text::from_static(key))));
    }
    parts.apply(alloc, keeper, call, plan)?;
    Ok(Reply::Accepted(json))
}
