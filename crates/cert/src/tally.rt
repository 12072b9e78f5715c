//! The tally of datagrams that were looked at one by one: what came, but for the symbols' bytes.
ghost use Rattle.std.specs.Prelude.{◌≡◌, ◌<◌, ◌≤◌, ◌+◌, ◌-◌, ◌^◌, [], ℕ, List, length};
ghost use Rattle.std.specs.Prelude.{map, true, is_some, IfOk, IfSome, IsNone, OnOk};
ghost use Rattle.std.specs.List.{sum_by};
ghost use Rattle.lists.specs.Below.{below};
ghost use Rattle.losses.specs.Groups.{group_at, groups_of, InEachList};
ghost use Rattle.losses.specs.Losses.{IsBurst};
ghost use Rattle.session.specs.Frames.{AreDatagrams};
ghost use Rattle.partition.specs.Fti.{Fti as FtiValue};
ghost use Rattle.alc.specs.Views.{packet_of};
ghost use Rattle.reception.specs.Reception.{symbol_of};
ghost use Rattle.reception.specs.Walks.{readings_of};
ghost use Rattle.certificate.specs.Certificate.{Certificate as CertificateValue};
ghost use Rattle.cert.specs.Report.{IsReport, OnYes};
ghost use Rattle.cert.specs.Surveying.{IsSurvey, OnYesWith};
ghost use Rattle.cert.specs.Scan.{line_in, with_carrier, AreEnough, IsFirstShortGroup, IsPut};
ghost use Rattle.cert.specs.Scan.{VerdictWhereGiven};
ghost use Rattle.cert.specs.Verdict.{IsAgainst};

use crate::datagrams::{empty_groups, put, put_carrier};
use crate::verdict::{Reason, Report, Survey, Verdict};
use alc::Packet;
use losses::{Figures, Groups, Member, figures_of, runs_of};
use partition::Fti;
use reception::{Identity, Look, Scope};
use std::alloc::{AllocError, Global};

/// Which datagrams came to one who asks for an identity's packets and knows their FTI. None is
/// kept: of a packet there are its place and its ESI in its block's group, and a carrier's place.
#[derive(Drop)]
pub struct Tally {
    pub scope: Scope,
    pub groups: Groups,
    pub carriers: Vec<usize>,
    /// How many datagrams came.
    pub count: usize,
    /// How many of them are the identity's packets.
    pub taken: usize,
    ghost few: { taken ≤ count },
    ghost known: { is_some scope.fti ≡ true },
}

impl Tally {
    ghost use Rattle.cert.specs.Tallying.{AreTallied, IsLookAt, IsTally, LacksNothing, Says};
    ghost use Rattle.cert.specs.Tallying.{by_certificate, tallied_of};

    /// Before the first datagram.
    pub fn new(alloc: Global, identity: Identity, fti: Fti) -> Result<Tally, AllocError>
        ensures identity { IfOk result (λ tally. tally.scope.identity ≡ identity) }
        ensures none { IfOk result (λ tally. (says : Says)
            → AreTallied says fti (tallied_of tally) []) }
    {
        Ok(Tally {
            scope: Scope::with_fti(identity, fti),
            groups: empty_groups(alloc, &fti)?,
            carriers: Vec::new(alloc),
            count: 0,
            taken: 0,
        })
    }

    /// The next datagram's packet in range, or the reason against it, before it is counted. `None`
    /// where it is of another identity.
    pub fn look<'d>(&self, datagram: &'d [u8]) -> Result<Option<Packet<'d>>, Reason>
        ensures { IsLookAt datagram.now self.now.scope self.now.count result }
    {
        let place = self.count;
        let mut scope = self.scope;
        match scope.look(datagram) {
            Ok(Look::InRange(packet)) => Ok(Some(packet)),
            Ok(Look::Other) => Ok(None),
            Ok(Look::Early) => unreachable!(),
            Ok(Look::OtherFti) => Err(Reason::OtherFti(place)),
            Ok(Look::SymbolLength) => Err(Reason::SymbolLength(place)),
            Ok(Look::Range) => Err(Reason::Range(place)),
            Err(fault) => Err(Reason::Packet(place, fault)),
        }
    }

    /// Passes over the next datagram, which is only counted. There is no more memory than the count
    /// goes.
    pub fn pass_over(&mut self) -> Result<(), AllocError>
        ensures scope { self.new.scope ≡ self.old.scope }
        ensures groups { self.new.groups ≡ self.old.groups }
        ensures carriers { self.new.carriers ≡ self.old.carriers }
        ensures taken { self.new.taken ≡ self.old.taken }
        ensures count { OnOk result (self.new.count ≡ self.old.count + 1) }
        ensures most { self.new.count < 2 ^ 64 }
    {
        let Some(count) = self.count.checked_add(1) else {
            return Err(AllocError);
        };
        self.count = count;
        Ok(())
    }

    /// Takes the next datagram, a packet in range.
    pub fn put(&mut self, packet: &Packet<'_>) -> Result<(), AllocError>
        requires { packet.now.sbn < length (groups_of self.old.groups) }
        ensures scope { self.new.scope ≡ self.old.scope }
        ensures count { OnOk result (self.new.count ≡ self.old.count + 1) }
        ensures taken { OnOk result (self.new.taken ≡ self.old.taken + 1) }
        ensures put { OnOk result (IsPut (groups_of self.old.groups) self.old.count
            (symbol_of (packet_of packet.now)) (groups_of self.new.groups)) }
        ensures carriers { OnOk result (self.new.carriers.items
            ≡ with_carrier self.old.carriers.items self.old.count packet.now.fti) }
    {
        let place = self.count;
        self.pass_over()?;
        self.taken += 1;
        put(&mut self.groups, place, packet)?;
        put_carrier(&mut self.carriers, place, packet)
    }

    /// The verdict on the datagrams, where nothing is against them at their places, nor against the
    /// object. Want of memory is the only error.
    pub fn verdict(&self, alloc: Global) -> Result<Verdict, AllocError>
        requires { (says : Says) × (f : FtiValue) × (datagrams : List (List ℕ))
            × IsTally says f self.now datagrams }
        ensures report { (says : Says) (f : FtiValue) (datagrams : List (List ℕ))
            → AreDatagrams datagrams → IsTally says f self.now datagrams
            → IfOk result (λ v. OnYes v (IsReport self.now.scope.identity datagrams f)) }
        ensures verdict { (z : CertificateValue) (datagrams : List (List ℕ))
            → IsTally (by_certificate z) z.fti self.now datagrams
            → IfOk result (VerdictWhereGiven self.now.scope.identity datagrams z) }
        ensures short { (b have need : ℕ) → IfOk result (λ v.
            v ≡ Verdict.No (Reason.Thin b have need)
            → IsFirstShortGroup (groups_of self.now.groups) b have need) }
    {
        match self.lack() {
            Some(reason) => Ok(Verdict::No(reason)),
            None => Ok(Verdict::Yes(self.report(alloc)?)),
        }
    }

    /// The verdict on the datagrams as [`Self::verdict`] has it, and at a yes, and only there, what
    /// a picture shows beside the report.
    pub fn survey(&self, alloc: Global) -> Result<(Verdict, Option<Survey>), AllocError>
        requires { (says : Says) × (f : FtiValue) × (datagrams : List (List ℕ))
            × IsTally says f self.now datagrams }
        ensures report { (says : Says) (f : FtiValue) (datagrams : List (List ℕ))
            → AreDatagrams datagrams → IsTally says f self.now datagrams
            → IfOk result (λ r. OnYes r.0 (IsReport self.now.scope.identity datagrams f)) }
        ensures survey { (says : Says) (f : FtiValue) (datagrams : List (List ℕ))
            → AreDatagrams datagrams → IsTally says f self.now datagrams → IfOk result (λ r.
            OnYesWith r.0 r.1 (IsSurvey self.now.scope.identity datagrams f)) }
        ensures verdict { (z : CertificateValue) (datagrams : List (List ℕ))
            → IsTally (by_certificate z) z.fti self.now datagrams
            → IfOk result (λ r. VerdictWhereGiven self.now.scope.identity datagrams z r.0) }
        ensures short { (b have need : ℕ) → IfOk result (λ r.
            r.0 ≡ Verdict.No (Reason.Thin b have need)
            → IsFirstShortGroup (groups_of self.now.groups) b have need) }
    {
        if let Some(reason) = self.lack() {
            return Ok((Verdict::No(reason), None));
        }
        let report = self.report(alloc)?;
        let runs = runs_of(alloc, &self.groups, &self.carriers, self.count)?;
        let carriers = self.carriers.to_vec(alloc)?;
        let survey = Survey {
            datagrams: self.count,
            carriers,
            runs,
        };
        Ok((Verdict::Yes(report), Some(survey)))
    }

    /// The ESIs of a block's symbols, as they came.
    pub fn esis(&self, alloc: Global, block: u32) -> Result<Vec<u8>, AllocError>
        requires { block < length (groups_of self.now.groups) }
        ensures { IfOk result (λ v. v.items
            ≡ map (λ q. q.esi) (group_at (groups_of self.now.groups) block).members) }
    {
        let mut members = Vec::new(alloc);
        self.groups.copy_members(block as usize, &mut members)?;
        esis_of_members(alloc, &members)
    }

    // The first of what lacks, if something does: packets, symbols of a block, a carrier.
    fn lack(&self) -> Option<Reason>
        requires { (says : Says) × (f : FtiValue) × (datagrams : List (List ℕ))
            × IsTally says f self.now datagrams }
        ensures none { IsNone result → LacksNothing self.now }
        ensures against { (z : CertificateValue) (datagrams : List (List ℕ))
            → IsTally (by_certificate z) z.fti self.now datagrams
            → IfSome result (IsAgainst self.now.scope.identity (readings_of datagrams) z) }
        ensures short { (b have need : ℕ) → IfSome result (λ reason.
            reason ≡ Reason.Thin b have need
            → IsFirstShortGroup (groups_of self.now.groups) b have need) }
    {
        if self.taken == 0 {
            return Some(Reason::Empty);
        }
        if let Some((block, have, need)) = first_short(&self.groups) {
            return Some(Reason::Thin { block, have, need });
        }
        if self.carriers.is_empty() {
            return Some(Reason::NoCarrier);
        }
        None
    }

    // The report where nothing lacks, whose burst is that of the groups and the carriers.
    fn report(&self, alloc: Global) -> Result<Report, AllocError>
        requires tally { (says : Says) × (f : FtiValue) × (datagrams : List (List ℕ))
            × IsTally says f self.now datagrams }
        requires all { LacksNothing self.now }
        ensures report { (says : Says) (f : FtiValue) (datagrams : List (List ℕ))
            → AreDatagrams datagrams → IsTally says f self.now datagrams
            → IfOk result (IsReport self.now.scope.identity datagrams f) }
        ensures burst { IfOk result (λ report.
            InEachList (groups_of self.now.groups) self.now.carriers.items
            (λ blocks xs. IsBurst blocks xs report.burst)) }
    {
        let blocks = block_lines(alloc, &self.groups)?;
        let Figures {
            margin,
            kill,
            kill_block,
            burst,
            burst_place,
            burst_block,
        } = figures_of(alloc, &self.groups, &self.carriers)?;
        let repeats = without_different(self.taken, &blocks);
        Ok(Report {
            blocks,
            carriers: self.carriers.len(),
            repeats,
            margin,
            kill,
            kill_block,
            burst,
            burst_place,
            burst_block,
        })
    }
}

// How many of so many packets are left without one for each different ESI of each block.
fn without_different(taken: usize, blocks: &[(usize, usize)]) -> usize
    ensures { result ≡ taken - sum_by (λ counts. counts.1) blocks.now }
{
    let mut repeats = taken;
    for (_, have) in blocks {
        repeats = repeats.saturating_sub(*have);
    }
    repeats
}

// The least block with fewer different ESIs than it needs, how many it has and how many it needs.
fn first_short(groups: &Groups) -> Option<(u32, usize, usize)>
    requires { length (groups_of groups.now) ≤ 2 ^ 24 }
    ensures enough { IsNone result → AreEnough (groups_of groups.now) }
    ensures short { IfSome result (λ s. IsFirstShortGroup (groups_of groups.now) s.0 s.1 s.2) }
{
    for block in 0..groups.len() {
        let need = groups.need(block);
        let have = groups.different(block);
        if have < need {
            return Some((block as u32, have, need));
        }
    }
    None
}

// For each block its source symbols and its different ESIs.
fn block_lines(alloc: Global, groups: &Groups) -> Result<Vec<(usize, usize)>, AllocError>
    ensures { IfOk result (λ v.
        v.items ≡ map (line_in (groups_of groups.now)) (below (length (groups_of groups.now)))) }
{
    let mut blocks = Vec::new(alloc);
    for block in 0..groups.len() {
        blocks.push((groups.need(block), groups.different(block)))?;
    }
    Ok(blocks)
}

// The ESIs of a block's symbols, as they came.
fn esis_of_members(alloc: Global, members: &[Member]) -> Result<Vec<u8>, AllocError>
    ensures { IfOk result (λ v. v.items ≡ map (λ q. q.esi) members.now) }
{
    let mut arrived_esis = Vec::with_capacity(alloc, members.len())?;
    for member in members {
        arrived_esis.push(member.esi)?;
    }
    Ok(arrived_esis)
}
