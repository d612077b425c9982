//! The revisions of templates, by name.
ghost use Rattle.std.specs.Prelude.{◌≡◌, [], ◌∷◌, ◌++◌, IfOk, OnOk, OnErr, None};
ghost use Rattle.std.specs.List.{last_or};
ghost use Rattle.std.specs.Option.{option_copied};
ghost use Rattle.std.specs.FinMap as map;
ghost use Rattle.canary_release.specs.Desks.{newest, with_revision};

use canary_base::error::Memory;
use canary_base::names::Name;
use canary_plan::template::Template;
use std::alloc::Global;
use std::collections::BTreeMap;
use std::marker::Model;

// The revisions of one template, number 1 first.
#[derive(Drop)]
struct RevisionList {
    revisions: Vec<Template>,
}

impl Model for RevisionList {
    ghost use Rattle.std.specs.Prelude.{List};
    ghost use Rattle.std.specs.Coded.{coded_list};
    ghost use Rattle.canary_plan.specs.declared.template.Template.{Template};
    ghost use Rattle.canary_plan.specs.contracts.template.Template.{the_row};

    ghost Value = { List Template };

    ghost coded = { coded_list the_row.coded };

    ghost view = { λ s. s.revisions.items };
}

impl RevisionList {
    // The revisions of a template that has only this one, number 1; or `Memory`.
    fn of_one(alloc: Global, template: Template) -> Result<RevisionList, Memory>
        ensures { IfOk result (λ revisions. revisions ≡ template ∷ []) }
    {
        let mut revisions = Vec::new(alloc);
        revisions.push(template)?;
        Ok(RevisionList { revisions })
    }

    // The last one.
    fn newest(&self) -> Option<&Template>
        ensures { option_copied result ≡ last_or None self.now }
    {
        self.revisions.as_slice().last()
    }

    // Adds the revision with the next number, or `Memory`; the revisions are then as before.
    fn push(&mut self, template: Template) -> Result<(), Memory>
        ensures ok { OnOk result (self.new ≡ self.old ++ template ∷ []) }
        ensures err { OnErr result (self.new ≡ self.old) }
    {
        self.revisions.push(template)?;
        Ok(())
    }
}

/// For each template its revisions, number 1 first, which contracts see as a finite map.
#[derive(Drop)]
pub(crate) struct Revisions {
    templates: BTreeMap<Name, RevisionList>,
}

impl Model for Revisions {
    ghost use Rattle.std.specs.Coded.{coded_list};
    ghost use Rattle.std.specs.FinMap as map;
    ghost use Rattle.canary_plan.specs.contracts.template.Template.{the_row};
    ghost use Rattle.canary_release.specs.Desks.{RevisionMap};
    ghost use Rattle.canary_once.specs.BookCodes.{map_code};

    ghost Value = { RevisionMap };

    ghost coded = { map_code (coded_list the_row.coded) };

    ghost view = { λ s. map.from_entries s.templates.entries };
}

impl Revisions {
    /// No templates, which takes no memory.
    pub(crate) fn new(alloc: Global) -> Revisions
        ensures { result ≡ map.empty }
    {
        Revisions {
            templates: BTreeMap::new(alloc),
        }
    }

    /// The newest revision of the template of that name.
    pub(crate) fn newest(&self, name: &Name) -> Option<&Template>
        ensures { option_copied result ≡ newest self.now name.now }
    {
        match self.templates.get(name) {
            Some(revisions) => revisions.newest(),
            None => None,
        }
    }

    /// Adds the next revision of the template of that name, or `Memory`; all is then as before.
    pub(crate) fn push(
        &mut self,
        alloc: Global,
        name: Name,
        template: Template,
    ) -> Result<(), Memory>
        ensures ok { OnOk result (self.new ≡ with_revision self.old name template) }
        ensures err { OnErr result (self.new ≡ self.old) }
    {
        match self.templates.get_mut(&name) {
            Some(revisions) => revisions.push(template),
            None => {
                let first = RevisionList::of_one(alloc, template)?;
                self.templates.insert(name, first)?;
                Ok(())
            }
        }
    }
}
