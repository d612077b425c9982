//! Templates by name.
ghost use Rattle.std.specs.Prelude.{◌≡◌, option_copied, IfOk, OnOk, OnErr};
ghost use Rattle.std.specs.FinMap as map;

use crate::template::Template;
use canary_base::error::Memory;
use canary_base::names::Name;
use std::alloc::Global;
use std::collections::BTreeMap;
use std::marker::Model;

/// Templates by name, which contracts see as a finite map.
#[derive(Drop)]
pub struct Templates {
    templates: BTreeMap<Name, Template>,
}

impl Model for Templates {
    ghost use Rattle.std.specs.Prelude.{List, ℕ};
    ghost use Rattle.std.specs.Ordering.{nat_cmp};
    ghost use Rattle.std.specs.Cmp.Lexicographic.{slice_cmp};
    ghost use Rattle.std.specs.FinMap as map;
    ghost use Rattle.std.specs.Coded.{coded_ℕ, coded_list};
    ghost use Rattle.canary_plan.specs.declared.template.Template.{Template};
    ghost use Rattle.canary_plan.specs.contracts.template.Template.{the_row};

    ghost Value = { map.FinMap (slice_cmp nat_cmp) Template };

    ghost coded = { map.code (coded_list coded_ℕ) the_row.coded };

    ghost view = { λ s. map.from_entries s.templates.entries };
}

impl Templates {
    /// No templates, which takes no memory.
    pub fn new(alloc: Global) -> Templates
        ensures { result ≡ map.empty }
    {
        Templates {
            templates: BTreeMap::new(alloc),
        }
    }

    /// A copy of them, or `Memory`.
    pub fn copy(&self, alloc: Global) -> Result<Templates, Memory>
        ensures { IfOk result (λ copy. copy ≡ self.now) }
    {
        let mut copies = Templates::new(alloc);
        for (name, template) in &self.templates {
            copies.insert(*name, template.copy(alloc)?)?;
        }
        Ok(copies)
    }

    /// The template of that name.
    pub fn get(&self, name: Name) -> Option<&Template>
        ensures { option_copied result ≡ map.get self.now name }
    {
        self.templates.get(&name)
    }

    /// Puts a template at a name, in place of the one that was there, or `Memory`; the templates
    /// are then as before.
    pub fn insert(&mut self, name: Name, template: Template) -> Result<(), Memory>
        ensures ok { OnOk result (self.new ≡ map.insert self.old name template) }
        ensures err { OnErr result (self.new ≡ self.old) }
    {
        self.templates.insert(name, template)?;
        Ok(())
    }
}
