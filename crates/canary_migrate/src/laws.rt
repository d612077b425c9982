//! Laws over the definitions alone.
ghost use Rattle.canary_migrate.specs.FirstContents.{FirstRowsMigrate, SoundRowsMigrate};

use canary_tables_contents::judged_laws as judging_laws;

/// What the first schema has of the rows of contents of its time migrates to the rows of these
/// contents. So if they are sound, it migrates to rows of sound contents.
pub fn first_rows()
    ensures rows { FirstRowsMigrate }
    ensures sound { SoundRowsMigrate }
{
    judging_laws::exactly_those();
}
