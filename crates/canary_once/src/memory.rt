//! A book in memory: the plain program that other books are compared with.
ghost use Rattle.std.specs.Prelude.{◌≡◌, ◌+◌, ◌≤◌, length, take, drop, IfOk, OnOk, OnErr};
ghost use Rattle.canary_plan.specs.Commands.{subject_of};
ghost use Rattle.canary_release.specs.Desks.{newest};
ghost use Rattle.canary_release.specs.Stored.{desk_with};
ghost use Rattle.canary_release.specs.Effects.{IsChange};
ghost use Rattle.canary_once.specs.Contents.{with_receipt};
ghost use Rattle.canary_once.specs.BookCalls.{IsEmptyAndSure};
ghost use Rattle.canary_once.specs.Contents.{receipts_in, known_named, HaveReceipts};
ghost use Rattle.canary_once.specs.InMemory.{IsKept};

use crate::book::{Book, BookFault, Receipt, Settlement};
use crate::callers::Callers;
use crate::kept_desk::KeptDesk;
use crate::laws;
use crate::record::RunRecord;
use crate::revisions::Revisions;
use canary_base::error::Memory;
use canary_base::lists::Listed;
use canary_base::names::Name;
use canary_base::numbers::Number;
use canary_plan::line::Line;
use canary_plan::templates::Templates;
use canary_release::effect::Recorded;
use canary_release::laws as desk_laws;
use canary_release::service::Service;
use std::alloc::Global;
use std::cmp::min;
use std::marker::Model;

/// A sure book of maps: the receipts by caller, and the desk.
#[derive(Drop)]
pub struct MemoryBook {
    alloc: Global,
    callers: Callers,
    desk: KeptDesk,
}

impl Model for MemoryBook {
    ghost use Rattle.canary_once.specs.Contents.{Contents};
    ghost use Rattle.canary_once.specs.Sound.{AreContents};
    ghost use Rattle.canary_once.specs.BookCodes.{contents_code};

    ghost Value = { Contents };

    ghost coded = { contents_code };

    ghost view = { λ b. record { callers = b.callers; desk = b.desk } };

    ghost invariant = { λ b. AreContents (record { callers = b.callers; desk = b.desk }) };
}

impl MemoryBook {
    /// A book with nothing settled, which takes no memory.
    pub fn new(alloc: Global) -> MemoryBook
        ensures { IsEmptyAndSure (⟦<MemoryBook as Book>⟧.state result) }
    {
        laws::soundness();
        MemoryBook {
            alloc,
            callers: Callers::new(alloc),
            desk: KeptDesk::new(alloc),
        }
    }
}

impl Book for MemoryBook {
    ghost use Rattle.std.specs.Prelude.{true};

    ghost state = { λ contents. record {
      contents = contents;
      is_honest = Unit {0};
      is_in_memory = Unit {0};
      is_sure = true;
    } };

    // Counts the caller's receipts, of which each settled request has one; it cannot fail.
    fn settled(&mut self, caller: &Name) -> Result<u32, BookFault> {
        Ok(self.callers.count(caller))
    }

    // A copy of the receipt under that number, if there is one, or `Memory`.
    fn receipt(&mut self, caller: &Name, number: Number) -> Result<Option<Receipt>, BookFault> {
        match self.callers.receipt(caller, number) {
            Some(receipt) => Ok(Some(receipt.copy(self.alloc)?)),
            None => Ok(None),
        }
    }

    // Copies of the newest revisions of the templates with these names, or `Memory`.
    fn templates(&mut self, names: &[Name]) -> Result<Templates, BookFault> {
        Ok(templates_named(self.alloc, self.desk.templates(), names)?)
    }

    // A copy of the service as it is stored, not passed to any moment, or `Memory`.
    fn service(&mut self, name: &Name) -> Result<Option<Service>, BookFault> {
        match self.desk.services().service(*name) {
            Some(service) => Ok(Some(service.copy(self.alloc)?)),
            None => Ok(None),
        }
    }

    // A copy of the service's history as it is stored, or `Memory`; empty for an unknown service.
    fn history(&mut self, name: &Name) -> Result<Listed<Line>, BookFault> {
        Ok(copy_lines(self.alloc, self.desk.services().history(*name))?)
    }

    // The record of that run, if there is one, or `Memory`.
    fn run(&mut self, name: &Name, number: Number) -> Result<Option<RunRecord>, BookFault> {
        Ok(self.desk.services().run(self.alloc, *name, number.get())?)
    }

    // A copy of a `page` of the service's measurements, or `Memory`; empty for an unknown service.
    fn measurements(
        &mut self,
        name: &Name,
        from: u64,
        most: u32,
    ) -> Result<Listed<Recorded>, BookFault> {
        let all = self.desk.services().measurements(*name);
        Ok(copy_measurements(self.alloc, page(all, from, most))?)
    }

    // Settles by `settle`, after it recalls for the prover the laws of the desk that this needs.
    fn commit(&mut self, settlement: Settlement) -> Result<(), BookFault> {
        desk_laws::in_order();
        desk_laws::sound();
        desk_laws::refusals();
        desk_laws::effects();
        desk_laws::changes();
        settle(self.alloc, &mut self.callers, &mut self.desk, settlement)?;
        Ok(())
    }
}

// Adds the receipt and makes the change, or does nothing.
fn settle(
    alloc: Global,
    callers: &mut Callers,
    desk: &mut KeptDesk,
    settlement: Settlement,
) -> Result<(), Memory>
    requires receipts { HaveReceipts callers.old }
    requires number { settlement.number ≡ length (receipts_in callers.old settlement.caller) + 1 }
    requires change { IsChange desk.old settlement.receipt.command settlement.change }
    requires kept { IsKept desk.old (subject_of settlement.receipt.command) settlement.change }
    ensures receipt { OnOk result (callers.new
        ≡ with_receipt callers.old settlement.caller settlement.receipt) }
    ensures desk { OnOk result (desk.new
        ≡ desk_with desk.old settlement.receipt.command settlement.change) }
    ensures few { settlement.number ≤ 1000000000 }
    ensures err { OnErr result ((callers.new ≡ callers.old) × (desk.new ≡ desk.old)) }
{
    let _limits = settlement.number.get();
    let caller = settlement.caller;
    callers.push(alloc, caller, settlement.receipt)?;
    if let Err(refused) = desk.change(alloc, settlement.change) {
        callers.take_back(&caller);
        return Err(refused);
    }
    Ok(())
}

// The newest revisions of the templates that have one of these names.
fn templates_named(alloc: Global, known: &Revisions, names: &[Name]) -> Result<Templates, Memory>
    ensures { IfOk result (λ found. found ≡ known_named (newest known.now) names.now) }
{
    let mut found = Templates::new(alloc);
    for name in names {
        if let Some(template) = known.newest(name) {
            found.insert(*name, template.copy(alloc)?)?;
        }
    }
    Ok(found)
}

// A copy of the lines, in order, or `Memory`.
fn copy_lines(alloc: Global, lines: &[Line]) -> Result<Listed<Line>, Memory>
    ensures { IfOk result (λ copies. copies ≡ lines.now) }
{
    Ok(Listed::of(Vec::from_slice(alloc, lines)?))
}

// Those from a place on, the first having place 0, and at most so many.
fn page(all: &[Recorded], from: u64, most: u32) -> &[Recorded]
    ensures { result.now ≡ take most (drop from all.now) }
{
    let start = min(from as usize, all.len());
    let rest = &all[start..];
    let count = min(most as usize, rest.len());
    &rest[..count]
}

// A copy of the measurements, in order, or `Memory`.
fn copy_measurements(alloc: Global, all: &[Recorded]) -> Result<Listed<Recorded>, Memory>
    ensures { IfOk result (λ copies. copies ≡ all.now) }
{
    let mut copies = Listed::of(Vec::new(alloc));
    for recorded in all {
        copies.push(recorded.copy(alloc)?)?;
    }
    Ok(copies)
}
