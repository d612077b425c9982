//! Which commands make a service, and which bind one: their kinds say so.
ghost use Rattle.std.specs.Prelude.{◌≡◌};
ghost use Rattle.canary_tables_contents.specs.Settling.{begins, makes_service};

use canary_canonical::command::CanonicalCommand;
use canary_plan::command::CommandKind;

/// Whether the command makes a service. Any other one is on a service that is there.
pub(crate) fn makes_service(command: &CanonicalCommand) -> bool
    ensures { result ≡ makes_service command.now }
{
    matches!(command.kind(), CommandKind::Service)
}

/// Whether the command begins an attempt, as a Start and a Retry do.
pub fn begins(command: &CanonicalCommand) -> bool
    ensures { result ≡ begins command.now }
{
    matches!(command.kind(), CommandKind::Start | CommandKind::Retry)
}
