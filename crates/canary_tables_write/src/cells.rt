//! Values as the database takes them.
ghost use Rattle.std.specs.Prelude.{◌≡◌, pos};

use canary_base::moments::Moment;

/// The seconds of a moment since 1970-01-01T00:00:00Z.
pub(crate) fn seconds(moment: Moment) -> i64
    ensures { result ≡ pos moment }
{
    moment.get() as i64
}
