//! Commands as a store keeps them: by their canonical text.
ghost use Rattle.std.specs.Prelude.{◌≡◌, IfOk, Some};
ghost use Rattle.canary_plan.specs.Commands.{same_command, kind_of};
ghost use Rattle.canary_canonical.specs.Texts.{command_text};
ghost use Rattle.canary_canonical.specs.Readings.{canonical_in};
ghost use Rattle.canary_canonical.specs.Reads.{IsRead};

use crate::form::FormFault;
use crate::reading::from_canonical;
use crate::writing;
use canary_base::error::Memory;
use canary_base::lists::Text;
use canary_plan::command::{Command, CommandKind};
use canary_plan::laws;
use std::alloc::Global;
use std::marker::Model;

/// A command, which contracts see as the command, and which holds its canonical text and its kind.
#[derive(Drop)]
pub struct CanonicalCommand {
    text: Text,
    kind: CommandKind,
}

impl Model for CanonicalCommand {
    ghost use Rattle.std.specs.Prelude.{◌≡◌};
    ghost use Rattle.canary_plan.specs.declared.command.Command.{Command};
    ghost use Rattle.canary_plan.specs.Commands.{kind_of};
    ghost use Rattle.canary_canonical.specs.Readings.{command_of, IsCanonical};

    ghost Value = { Command };

    ghost view = { λ c. command_of c.text };

    ghost invariant = { λ c. IsCanonical c.text × (c.kind ≡ kind_of (command_of c.text)) };
}

impl CanonicalCommand {
    /// The command by its text, or `Memory`.
    pub fn of(alloc: Global, command: &Command) -> Result<CanonicalCommand, Memory>
        ensures { IfOk result (λ canonical. canonical ≡ command.now) }
    {
        let text = writing::text(alloc, command)?;
        let kind = command.kind();
        Ok(CanonicalCommand { text, kind })
    }

    /// The command with this text, which is kept.
    ///
    /// # Errors
    /// `Unreadable` if the text is no command's canonical text; `Memory`.
    pub fn read(alloc: Global, text: Text) -> Result<CanonicalCommand, FormFault>
        ensures { IsRead (canonical_in text) result }
    {
        let kind = from_canonical(alloc, text.as_str())?.kind();
        Ok(CanonicalCommand { text, kind })
    }

    /// What kind of command it is.
    pub fn kind(&self) -> CommandKind
        ensures { result ≡ kind_of self.now }
    {
        self.kind
    }

    /// Its canonical text.
    #[tactic(auto, using(crate::proofs::Canonicals::text_is))]
    pub fn text(&self) -> &str
        ensures value { result.now ≡ command_text self.now }
        ensures read { canonical_in result.now ≡ Some self.now }
    {
        self.text.as_str()
    }

    /// A copy of it, or `Memory`.
    pub fn copy(&self, alloc: Global) -> Result<CanonicalCommand, Memory>
        ensures { IfOk result (λ copy. copy ≡ self.now) }
    {
        let (text, kind) = (self.text.copy(alloc)?, self.kind);
        Ok(CanonicalCommand { text, kind })
    }

    /// Whether it is the same command, by the texts alone.
    #[tactic(auto, using(crate::proofs::Canonicals::same_by_text))]
    pub fn is_same(&self, other: &CanonicalCommand) -> bool
        ensures { result ≡ same_command self.now other.now }
    {
        laws::same_commands();
        self.text.as_str() == other.text.as_str()
    }
}
