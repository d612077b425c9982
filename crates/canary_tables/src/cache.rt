//! What a book keeps of what it has read: how many requests of callers are settled, services,
//! templates, receipts, and histories.
ghost use Rattle.std.specs.Prelude.{◌≡◌, ◌+◌, true, None, Some, IfSome, option_copied};
ghost use Rattle.std.specs.FinMap as map;
ghost use Rattle.canary_once.specs.Contents.{Contents, put_some, receipt_at};
ghost use Rattle.canary_tables.specs.CacheMaps.{IsWithin};
ghost use Rattle.canary_tables.specs.Caches.{IsCacheOf, with_changed, kept_of, without_revised};
ghost use Rattle.canary_tables.specs.Caches.{AreReceipts, with_lines, with_told, KeepsNothing};

use crate::cache_map::CacheMap;
use crate::weights::{
    BYTES_OF_COUNT, bytes_of_history, bytes_of_receipt, bytes_of_service, bytes_of_template,
};
use canary_base::lists::Listed;
use canary_base::names::{MAX_BYTES, Name};
use canary_base::numbers::Number;
use canary_once::book::{Receipt, Settlement};
use canary_once::history::lines_after;
use canary_plan::line::Line;
use canary_plan::template::Template;
use canary_release::decide::DeskChange;
use canary_release::effect::Effect;
use canary_release::service::Service;
use std::alloc::Global;

// Counts, templates, receipts and histories each have one part in so many of the room, and services
// have the rest.
const PARTS_OF_COUNTS: u64 = 4;

const PARTS_OF_TEMPLATES: u64 = 8;

const PARTS_OF_RECEIPTS: u64 = 8;

const PARTS_OF_HISTORIES: u64 = 8;

// The receipts of a caller have as many places as there are two letters of so many: 256. A repeat
// comes soon, and what is kept stays small.
const LETTERS: u32 = 16;

/// A receipt, and whose it is: of this caller, under this number.
#[derive(Drop)]
pub(crate) struct NumberedReceipt {
    caller: Name,
    number: Number,
    receipt: Receipt,
}

impl NumberedReceipt {
    // Whether it is that of this caller under this number.
    fn is_of(&self, caller: &Name, number: Number) -> bool
        ensures { result ≡ true → (self.now.caller ≡ caller.now) × (self.now.number ≡ number) }
    {
        self.caller == *caller && self.number == number
    }
}

// The name of the place for a receipt: two letters by its number, and what its caller's name begins
// with. Of receipts with one place the last one is kept.
fn place_of(caller: &Name, number: Number) -> Name {
    let number = number.get();
    let name = caller.as_bytes();
    let shared = if name.len() > MAX_BYTES - 2 {
        MAX_BYTES - 2
    } else {
        name.len()
    };
    let mut bytes = [0; MAX_BYTES];
    bytes[0] = letter(number);
    bytes[1] = letter(number / LETTERS);
    bytes[2..2 + shared].copy_from_slice(&name[..shared]);
    match Name::read(&bytes[..2 + shared]) {
        Some(place) => place,
        None => *caller,
    }
}

// A letter from a to p, by the remainder of the number.
fn letter(number: u32) -> u8 {
    b'a'.wrapping_add((number % LETTERS) as u8)
}

// How many bytes of the room each part has.
#[derive(Clone, Copy)]
struct Parts {
    counts: u64,
    services: u64,
    templates: u64,
    receipts: u64,
    histories: u64,
}

// The parts of a room, which they fill.
fn parts_of(room: u64) -> Parts
    ensures { result.counts + result.services + result.templates + result.receipts
        + result.histories ≡ room }
{
    let counts = room / PARTS_OF_COUNTS;
    let templates = room / PARTS_OF_TEMPLATES;
    let receipts = room / PARTS_OF_RECEIPTS;
    let histories = room / PARTS_OF_HISTORIES;
    let services = room - (counts + templates + receipts + histories);
    Parts {
        counts,
        services,
        templates,
        receipts,
        histories,
    }
}

/// What a book keeps of what it has read, as far as there is room for it.
#[derive(Drop)]
pub(crate) struct Cache {
    /// How many requests of a caller are settled.
    pub(crate) counts: CacheMap<u32>,
    pub(crate) services: CacheMap<Service>,
    /// The newest revisions of templates.
    pub(crate) templates: CacheMap<Template>,
    /// Receipts, each in a place of its caller and number.
    receipts: CacheMap<NumberedReceipt>,
    /// The histories of services, whole.
    pub(crate) histories: CacheMap<Listed<Line>>,
    // The room for all of it, in bytes by estimate.
    room: u64,
}

impl Cache {
    /// Nothing, with room for so many bytes by estimate; it takes no memory.
    pub(crate) fn new(alloc: Global, room: u64) -> Cache
        ensures nothing { KeepsNothing result }
        ensures room { result.room ≡ room }
        ensures kept { (c : Contents) → IsCacheOf result c }
    {
        let parts = parts_of(room);
        Cache {
            counts: CacheMap::new(alloc, parts.counts),
            services: CacheMap::new(alloc, parts.services),
            templates: CacheMap::new(alloc, parts.templates),
            receipts: CacheMap::new(alloc, parts.receipts),
            histories: CacheMap::new(alloc, parts.histories),
            room,
        }
    }

    /// Forgets all that is kept. There is as much room for more as there was.
    pub(crate) fn forget(&mut self, alloc: Global)
        ensures nothing { KeepsNothing self.new }
        ensures room { self.new.room ≡ self.old.room }
        ensures kept { (c : Contents) → IsCacheOf self.new c }
    {
        *self = Cache::new(alloc, self.room);
    }

    /// Keeps how many requests of a caller are settled, in place of the count that is kept.
    pub(crate) fn keep_count(&mut self, caller: Name, count: u32)
        ensures counts { IsWithin self.new.counts (map.insert self.old.counts caller count) }
        ensures services { self.new.services ≡ self.old.services }
        ensures templates { self.new.templates ≡ self.old.templates }
        ensures receipts { self.new.receipts ≡ self.old.receipts }
        ensures histories { self.new.histories ≡ self.old.histories }
    {
        self.counts.put(caller, count, BYTES_OF_COUNT);
    }

    /// Keeps a copy of a service that was read, if one was and there is memory for it. Nothing is
    /// kept under its name yet.
    pub(crate) fn keep_copy(&mut self, alloc: Global, name: Name, found: Option<&Service>)
        requires { map.get self.old.services name ≡ None }
        ensures counts { self.new.counts ≡ self.old.counts }
        ensures services { IsWithin self.new.services
            (put_some self.old.services name (option_copied found.entry)) }
        ensures templates { self.new.templates ≡ self.old.templates }
        ensures receipts { self.new.receipts ≡ self.old.receipts }
        ensures histories { self.new.histories ≡ self.old.histories }
    {
        let Some(service) = found else {
            return;
        };
        if let Ok(copy) = service.copy(alloc) {
            let weight = bytes_of_service(&copy);
            self.services.put(name, copy, weight);
        }
    }

    /// Keeps a copy of a template that was read, if one was and there is memory for it. Nothing is
    /// kept under its name yet.
    pub(crate) fn keep_template(&mut self, alloc: Global, name: Name, found: Option<&Template>)
        requires { map.get self.old.templates name ≡ None }
        ensures counts { self.new.counts ≡ self.old.counts }
        ensures services { self.new.services ≡ self.old.services }
        ensures templates { IsWithin self.new.templates
            (put_some self.old.templates name (option_copied found.entry)) }
        ensures receipts { self.new.receipts ≡ self.old.receipts }
        ensures histories { self.new.histories ≡ self.old.histories }
    {
        let Some(template) = found else {
            return;
        };
        if let Ok(copy) = template.copy(alloc) {
            let weight = bytes_of_template(&copy);
            self.templates.put(name, copy, weight);
        }
    }

    /// What is kept of the service that a change names.
    pub(crate) fn cached(&self, change: &DeskChange) -> Option<&Service>
        ensures { option_copied result ≡ kept_of self.now.services change.now }
    {
        match change {
            DeskChange::Service { service, .. } => self.services.get(service.name()),
            _ => None,
        }
    }

    /// Forgets what is kept of the template of which a change adds a revision.
    pub(crate) fn forget_revised(&mut self, change: &DeskChange)
        ensures counts { self.new.counts ≡ self.old.counts }
        ensures services { self.new.services ≡ self.old.services }
        ensures templates { self.new.templates ≡ without_revised self.old.templates change.now }
        ensures receipts { self.new.receipts ≡ self.old.receipts }
        ensures histories { self.new.histories ≡ self.old.histories }
    {
        if let DeskChange::Template(template) = change {
            let _ = self.templates.take(template.spec.name);
        }
    }

    /// The receipt under a caller's number, if it is kept.
    pub(crate) fn receipt_of(&self, caller: &Name, number: Number) -> Option<&Receipt>
        ensures { (c : Contents) → AreReceipts self.now.receipts c
            → IfSome (option_copied result) (λ receipt.
            receipt_at c caller.now number ≡ Some receipt) }
    {
        match self.receipts.get(place_of(caller, number)) {
            Some(kept) if kept.is_of(caller, number) => Some(&kept.receipt),
            _ => None,
        }
    }

    /// Keeps a copy of a receipt that was read, if one was and there is memory for it.
    pub(crate) fn keep_receipt(
        &mut self,
        alloc: Global,
        caller: Name,
        number: Number,
        found: Option<&Receipt>,
    )
        ensures counts { self.new.counts ≡ self.old.counts }
        ensures services { self.new.services ≡ self.old.services }
        ensures templates { self.new.templates ≡ self.old.templates }
        ensures receipts { (c : Contents) → AreReceipts self.old.receipts c
            → option_copied found.entry ≡ receipt_at c caller number
            → AreReceipts self.new.receipts c }
        ensures histories { self.new.histories ≡ self.old.histories }
    {
        let Some(receipt) = found else {
            return;
        };
        if let Ok(receipt) = receipt.copy(alloc) {
            self.put_receipt(NumberedReceipt {
                caller,
                number,
                receipt,
            });
        }
    }

    // Caches the receipt at its place, if there is room. The one that was there goes in any case.
    fn put_receipt(&mut self, receipt: NumberedReceipt)
        ensures counts { self.new.counts ≡ self.old.counts }
        ensures services { self.new.services ≡ self.old.services }
        ensures templates { self.new.templates ≡ self.old.templates }
        ensures receipts { (c : Contents) → AreReceipts self.old.receipts c
            → receipt_at c receipt.caller receipt.number ≡ Some receipt.receipt
            → AreReceipts self.new.receipts c }
        ensures histories { self.new.histories ≡ self.old.histories }
    {
        let place = place_of(&receipt.caller, receipt.number);
        let weight = bytes_of_receipt(&receipt.receipt);
        self.receipts.put(place, receipt, weight);
    }

    /// Keeps what a settled request left: how many requests of its caller are settled now, the
    /// service that it changed, and its receipt, each in the place of what is kept there; and the
    /// lines that it added, at the end of a history that is kept. What finds no room is not kept.
    pub(crate) fn keep(&mut self, settlement: Settlement)
        ensures counts { IsWithin self.new.counts
            (map.insert self.old.counts settlement.caller settlement.number) }
        ensures services { IsWithin self.new.services
            (with_changed self.old.services settlement.change) }
        ensures templates { self.new.templates ≡ self.old.templates }
        ensures receipts { (c : Contents) → AreReceipts self.old.receipts c
            → receipt_at c settlement.caller settlement.number ≡ Some settlement.receipt
            → AreReceipts self.new.receipts c }
        ensures histories { IsWithin self.new.histories
            (with_lines self.old.histories settlement.change) }
    {
        self.keep_count(settlement.caller, settlement.number.get());
        self.keep_lines(&settlement.change);
        self.keep_changed(settlement.change);
        self.put_receipt(NumberedReceipt {
            caller: settlement.caller,
            number: settlement.number,
            receipt: settlement.receipt,
        });
    }

    /// Keeps a copy of the history of a service that was read, if there is memory for it. Nothing
    /// is kept under its name yet.
    pub(crate) fn keep_history(&mut self, alloc: Global, name: Name, history: &Listed<Line>)
        requires { map.get self.old.histories name ≡ None }
        ensures counts { self.new.counts ≡ self.old.counts }
        ensures services { self.new.services ≡ self.old.services }
        ensures templates { self.new.templates ≡ self.old.templates }
        ensures receipts { self.new.receipts ≡ self.old.receipts }
        ensures histories { IsWithin self.new.histories
            (map.insert self.old.histories name history.now) }
    {
        if let Ok(copy) = history.copy(alloc) {
            let weight = bytes_of_history(&copy);
            self.histories.put(name, copy, weight);
        }
    }

    // Adds the lines of the change to the history of its service, if that is kept.
    fn keep_lines(&mut self, change: &DeskChange)
        ensures counts { self.new.counts ≡ self.old.counts }
        ensures services { self.new.services ≡ self.old.services }
        ensures templates { self.new.templates ≡ self.old.templates }
        ensures receipts { self.new.receipts ≡ self.old.receipts }
        ensures histories { IsWithin self.new.histories
            (with_lines self.old.histories change.now) }
    {
        if let DeskChange::Service { service, effects } = change {
            self.add_lines(service.name(), effects.as_slice());
        }
    }

    // Adds the lines of these effects to the history under that name, if it is kept. If there is no
    // memory or no room for them, the history is forgotten.
    fn add_lines(&mut self, name: Name, effects: &[Effect])
        ensures counts { self.new.counts ≡ self.old.counts }
        ensures services { self.new.services ≡ self.old.services }
        ensures templates { self.new.templates ≡ self.old.templates }
        ensures receipts { self.new.receipts ≡ self.old.receipts }
        ensures histories { IsWithin self.new.histories
            (with_told self.old.histories name effects.now) }
    {
        let Some(history) = self.histories.take(name) else {
            return;
        };
        if let Ok(lines) = lines_after(history, effects) {
            let weight = bytes_of_history(&lines);
            self.histories.put(name, lines, weight);
        }
    }

    // Caches the service that the change leaves; nothing if it changes no service.
    fn keep_changed(&mut self, change: DeskChange)
        ensures counts { self.new.counts ≡ self.old.counts }
        ensures services { IsWithin self.new.services (with_changed self.old.services change) }
        ensures templates { self.new.templates ≡ self.old.templates }
        ensures receipts { self.new.receipts ≡ self.old.receipts }
        ensures histories { self.new.histories ≡ self.old.histories }
    {
        if let DeskChange::Service { service, .. } = change {
            let weight = bytes_of_service(&service);
            self.services.put(service.name(), service, weight);
        }
    }
}
