//! The rows of values.
ghost use Rattle.std.specs.Prelude.{◌≡◌, Some, None, IfSome};
ghost use Rattle.canary_condition.specs.PhaseTexts.{phase_of_number};
ghost use Rattle.canary_tables_contents.specs.Numbers.{state_number, hold_number, bit, phase_column};
ghost use Rattle.canary_tables_contents.specs.Values.{standing_of};

use canary_condition::outcome::Phase;
use canary_release::service::ServiceParts;
use canary_release::state::ReleaseState;
use canary_tables_rows::rows::ServiceColumns;

/// How a service stands, as a row gives it.
pub fn standing(parts: &ServiceParts) -> ServiceColumns
    ensures { result ≡ standing_of parts.now.service parts.now.runs.count }
{
    let service = &parts.service;
    ServiceColumns {
        stable: service.stable,
        version: service.version,
        state: state_number(service.state),
        step: service.step,
        entered: service.entered,
        hold: hold_number(service.step_hold, service.background_hold),
        background: u32::from(service.background),
        runs: parts.runs.count,
        last: service.last,
    }
}

// The number of a state in a row: 0 in progress, 1 aborted, 2 done.
fn state_number(state: ReleaseState) -> u32
    ensures { result ≡ state_number state }
{
    match state {
        ReleaseState::InProgress => 0,
        ReleaseState::Aborted => 1,
        ReleaseState::Done => 2,
    }
}

// The number of the holds in a row: 1 of the step, 2 of the background, 3 both, else 0.
fn hold_number(step: bool, background: bool) -> u32
    ensures { result ≡ hold_number step background }
{
    match (step, background) {
        (false, false) => 0,
        (true, false) => 1,
        (false, true) => 2,
        (true, true) => 3,
    }
}

/// The number of a phase in a row; none for `Pending`, which no row has.
pub fn phase_number(phase: Phase) -> Option<u32>
    ensures value { IfSome result (λ number. number ≡ phase_column phase) }
    ensures read { IfSome result (λ number. phase_of_number number ≡ Some phase) }
    ensures pending { result ≡ None → phase ≡ Phase.Pending }
{
    phase.number().map(u32::from)
}
