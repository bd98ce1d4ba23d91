//! A reply before it is given.
ghost use Rattle.std.specs.Prelude.{◌≡◌, length, nat_lt, Err, IfErr, IfOk, None, Some};
ghost use Rattle.tenant_slot.specs.Prelude.{MAX_EFFORT, circuit_of, block_nets, Gives, packed_of, unfit_of, fit_of, packing_sources, placing_sources, routing_sources, places_by_block, net_text_of, place_text_of, route_text_of};
ghost use Rattle.tenant_slot.specs.Content.{IsMadeOf, IsNetlist, IsPacked};
ghost use Rattle.tenant_slot.specs.Outcomes.{file_outcome, job_begun, load_outcome, load_change, pack_outcome, place_outcome, route_outcome};
ghost use Rattle.tenant_slot.specs.SingleUser.{misfit_of};
ghost use Rattle.tenant_slot.specs.Standing.{IsChange};

use crate::beginning::Beginning;
use crate::content::Netlist;
use crate::file_texts::{net_file, place_file, route_file};
use crate::not_served::NotAnswered;
use crate::reply::{FileKind, Misfit, Refusal, Reply, StateName};
use crate::standing::Change;
use blif::{BlifError, SharedCircuit, read_blif};
use block_places::{Fit, fit_of};
use cluster::{PackError, PackFault, Packed, check};
use job_state::{Parked, SharedText};
use pathfinder::Routes;
use std::alloc::Global;
use std::marker::Model;
use strip_place::{Kept, MAX_EFFORT, Placing};

/// A reply that isn't given yet, with what it changes. If it is dropped, nothing happens.
#[derive(Drop)]
pub struct PreparedReply {
    pub(crate) lut_size: u32,
    pub(crate) change: Option<Change>,
    pub(crate) reply: Reply,
}

impl Model for PreparedReply {
    ghost use Rattle.tenant_slot.specs.Answer.{Outcome};
    ghost use Rattle.tenant_slot.specs.Standing.{IsChange};

    ghost Value = { Outcome };

    ghost view = { λ a. record { lut_size = a.lut_size; change = a.change; reply = a.reply } };

    ghost invariant = { λ a. IsChange a.lut_size a.change };
}

impl PreparedReply {
    /// The reply that will be given.
    pub fn reply(&self) -> &Reply
        ensures { result.now ≡ self.now.reply }
    {
        &self.reply
    }

    pub(crate) fn without_change(lut_size: u32, reply: Reply) -> Self
        ensures { result ≡ record { lut_size = lut_size; change = None; reply = reply } }
    {
        PreparedReply {
            lut_size,
            change: None,
            reply,
        }
    }

    pub(crate) fn with_change(lut_size: u32, change: Change, reply: Reply) -> Self
        requires { IsChange lut_size (Some change) }
        ensures { result ≡ record { lut_size = lut_size; change = Some change; reply = reply } }
    {
        PreparedReply {
            lut_size,
            change: Some(change),
            reply,
        }
    }

    /// The answer to a netlist that may be loaded: as the first if `kept` is `None`, otherwise in
    /// place of another, of which these places are kept. Shares the text.
    pub(crate) fn load(
        alloc: Global,
        lut_size: u32,
        text: &SharedText,
        kept: Option<Kept>,
    ) -> Result<Self, NotAnswered>
        ensures ok { IfOk result (λ a. a
            ≡ load_outcome lut_size text.now kept (circuit_of text.now lut_size)) }
        ensures err { IfErr result (λ e. e ≡ NotAnswered.NoMemory) }
    {
        match netlist_of(alloc, lut_size, text) {
            Ok(netlist) => Ok(PreparedReply {
                lut_size,
                change: Some(load_change(netlist, kept)),
                reply: Reply::Accepted(StateName::Loaded),
            }),
            Err(BlifError::Fault(fault)) => {
                drop(kept);
                let reply = Reply::Refused(Refusal::BadBlif(fault));
                Ok(PreparedReply::without_change(lut_size, reply))
            }
            Err(BlifError::NoMemory) => {
                drop(kept);
                Err(NotAnswered::NoMemory)
            }
        }
    }

    /// The answer to the packing of a netlist.
    pub(crate) fn pack(job: &Beginning<'_>) -> Result<Self, NotAnswered>
        requires { IsNetlist job.now.arch.now.lut_size job.now.netlist.now }
        ensures ok { IfOk result (λ a. a
            ≡ pack_outcome job.now.arch.now.lut_size
            (job_begun job.now.id job.now.generation
            (packing_sources job.now.arch.now job.now.strip job.now.netlist.now.text))
            (unfit_of job.now.netlist.now.circuit job.now.arch.now)) }
        ensures err { IfErr result (λ e. e ≡ NotAnswered.NoMemory) }
    {
        let arch = job.arch.arch();
        let lut_size = arch.lut_size;
        match check(job.alloc, job.netlist.circuit.circuit(), arch) {
            Ok(()) => {
                let reply = Reply::Accepted(StateName::Packing);
                Ok(PreparedReply::with_change(lut_size, Change::Begin(job.packing()?), reply))
            }
            Err(PackError::Fault(PackFault::CannotFit(ble))) => Ok(PreparedReply::without_change(
                lut_size,
                Reply::Refused(Refusal::CannotPack(ble)),
            )),
            Err(PackError::NoMemory) => Err(NotAnswered::NoMemory),
        }
    }

    /// The answer to the placing of a packed netlist.
    pub(crate) fn place(
        job: &Beginning<'_>,
        packing: &Parked,
        seed: u64,
        effort: u32,
    ) -> Result<Self, NotAnswered>
        requires { IsPacked job.now.arch.now job.now.strip job.now.netlist.now job.now.kept.now
            packing.now }
        ensures ok { IfOk result (λ a. a
            ≡ place_outcome job.now.arch.now.lut_size
            (job_begun job.now.id job.now.generation
            (placing_sources job.now.arch.now job.now.strip job.now.netlist.now.text
            job.now.kept.now seed effort)) (nat_lt MAX_EFFORT effort)
            (misfit_of (fit_of job.now.strip
            (packed_of job.now.netlist.now.circuit job.now.arch.now)))) }
        ensures err { IfErr result (λ e. e ≡ NotAnswered.NoMemory) }
    {
        let lut_size = job.arch.arch().lut_size;
        if MAX_EFFORT < effort {
            let reply = Reply::Refused(Refusal::BadEffort);
            return Ok(PreparedReply::without_change(lut_size, reply));
        }
        match misfit(fit_of(job.strip, packing.packed())) {
            Some(misfit) => {
                let reply = Reply::Refused(Refusal::DoesNotFit(misfit));
                Ok(PreparedReply::without_change(lut_size, reply))
            }
            None => {
                let change = Change::Place(job.placing(packing, seed, effort)?);
                let reply = Reply::Accepted(StateName::Placing);
                Ok(PreparedReply::with_change(lut_size, change, reply))
            }
        }
    }

    /// The answer to the routing of a placed netlist.
    pub(crate) fn route(
        job: &Beginning<'_>,
        placing: &Parked,
        seed: u64,
        effort: u32,
    ) -> Result<Self, NotAnswered>
        requires { IsMadeOf (placing_sources job.now.arch.now job.now.strip job.now.netlist.now.text
            job.now.kept.now seed effort) placing.now }
        ensures ok { IfOk result (λ a. a
            ≡ route_outcome job.now.arch.now.lut_size
            (job_begun job.now.id job.now.generation
            (routing_sources job.now.arch.now job.now.strip job.now.netlist.now.text
            job.now.kept.now seed effort))) }
        ensures err { IfErr result (λ e. e ≡ NotAnswered.NoMemory) }
    {
        let lut_size = job.arch.arch().lut_size;
        let change = Change::Begin(job.routing(placing, seed, effort)?);
        let reply = Reply::Accepted(StateName::Routing);
        Ok(PreparedReply::with_change(lut_size, change, reply))
    }

    /// The answer with the `.net` file of a packed netlist.
    pub(crate) fn net(alloc: Global, lut_size: u32, packed: &Packed) -> Result<Self, NotAnswered>
        ensures ok { IfOk result (λ a. a
            ≡ file_outcome lut_size FileKind.Net (net_text_of packed.now)) }
        ensures err { IfErr result (λ e. e ≡ NotAnswered.NoMemory) }
    {
        let text = net_file(alloc, packed)?;
        Ok(PreparedReply::file(lut_size, FileKind::Net, text))
    }

    /// The answer with the `.place` file of a placed netlist.
    pub(crate) fn place_file(
        alloc: Global,
        lut_size: u32,
        placing: &Placing,
    ) -> Result<Self, NotAnswered>
        ensures ok { IfOk result (λ a. a
            ≡ file_outcome lut_size FileKind.Place
            (place_text_of placing.now.strip placing.now.packed (places_by_block placing.now))) }
        ensures err { IfErr result (λ e. e ≡ NotAnswered.NoMemory) }
    {
        let text = place_file(alloc, placing)?;
        Ok(PreparedReply::file(lut_size, FileKind::Place, text))
    }

    /// The answer with the `.route` file of a routed netlist.
    pub(crate) fn route_file(
        alloc: Global,
        lut_size: u32,
        placing: &Placing,
        routes: &Routes,
    ) -> Result<Self, NotAnswered>
        requires { length routes.now ≡ length (block_nets placing.now.packed) }
        ensures ok { IfOk result (λ a. a
            ≡ file_outcome lut_size FileKind.Route
            (route_text_of placing.now.strip placing.now.packed (places_by_block placing.now)
            routes.now)) }
        ensures err { IfErr result (λ e. e ≡ NotAnswered.NoMemory) }
    {
        let text = route_file(alloc, placing, routes)?;
        Ok(PreparedReply::file(lut_size, FileKind::Route, text))
    }

    /// The answer with a file that is written already.
    fn file(lut_size: u32, kind: FileKind, text: SharedText) -> Self
        ensures { result ≡ file_outcome lut_size kind text }
    {
        PreparedReply::without_change(lut_size, Reply::File { kind, text })
    }
}

/// Reads the netlist of a text, and shares the text.
fn netlist_of(alloc: Global, lut_size: u32, text: &SharedText) -> Result<Netlist, BlifError>
    ensures lawful { IfOk result (IsNetlist lut_size) }
    ensures text { IfOk result (λ netlist. netlist.text ≡ text.now) }
    ensures fault { IfErr result (λ error. Gives (circuit_of text.now lut_size) (Err error)) }
{
    let circuit = read_blif(alloc, text.as_bytes(), lut_size)?;
    let circuit = SharedCircuit::new(alloc, circuit)?;
    let text = text.clone()?;
    Ok(Netlist { text, circuit })
}

/// What a netlist changes that is loaded: as the first if `kept` is `None`, otherwise in place of
/// another, of which these places are kept.
fn load_change(netlist: Netlist, kept: Option<Kept>) -> Change
    ensures { result ≡ load_change netlist kept }
{
    match kept {
        None => Change::Load(netlist),
        Some(kept) => Change::Replace(netlist, kept),
    }
}

/// The places of which a strip has too few.
fn misfit(fit: Fit) -> Option<Misfit>
    ensures { result ≡ misfit_of fit }
{
    match fit {
        Fit::Fits => None,
        Fit::TooManyBlocks { have, need } => Some(Misfit::Blocks { have, need }),
        Fit::TooManyPads { have, need } => Some(Misfit::Pads { have, need }),
    }
}
