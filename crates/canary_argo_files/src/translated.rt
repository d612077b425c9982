//! What files of manifests become.
ghost use Rattle.std.specs.Prelude.{◌≡◌, false, IfOk, IsTrue};
ghost use Rattle.std.specs.FinMap as map;
ghost use Rattle.canary_argo_files.specs.Taken.{are_taken, with_made, known_of};
ghost use Rattle.canary_argo_files.specs.Taken.{is_made_bound, are_bound};

use crate::found::FileFindings;
use crate::reading::Manifests;
use crate::report::{FilesReport, report_of};
use canary_base::error::Memory;
use canary_check::attempt::{add_template, check_attempt};
use canary_check::check::check;
use canary_convert::conversion::{Converted, convert};
use canary_convert::source::Source;
use canary_convert::work::Made;
use canary_plan::templates::Templates;
use std::alloc::Global;

/// What files of manifests become.
#[derive(Drop)]
pub struct Translated {
    /// What a desk takes, and what is measured. It counts only if nothing is found.
    pub made: Converted,
    /// What keeps them from being translated.
    pub found: FileFindings,
    /// What has to be known of the translation.
    pub notes: FileFindings,
    /// What is translated, though it may not be what was meant.
    pub warnings: FileFindings,
    // Whether a desk takes each manifest that is made, and attempts of each service.
    are_taken: bool,
}

impl Translated {
    /// Whether anything keeps them from being translated.
    pub fn is_found(&self) -> bool
        ensures { result ≡ false → IsTrue self.now.are_taken }
    {
        !self.are_taken || !self.found.is_empty()
    }
}

/// What these files become, what is found in them, and what is warned of; or `Memory`. If nothing
/// is found, the check of a manifest finds nothing in what is made, so a desk takes it; and a desk
/// with the templates that are made refuses no attempt of a service as it is bound.
pub fn translate(alloc: Global, manifests: &Manifests) -> Result<Translated, Memory>
    ensures templates { IfOk result (λ t.
        IsTrue t.are_taken → IsTrue (are_taken t.made.templates.items)) }
    ensures services { IfOk result (λ t.
        IsTrue t.are_taken → IsTrue (are_taken t.made.services.items)) }
    ensures attempts { IfOk result (λ t. IsTrue t.are_taken
        → IsTrue (are_bound (known_of map.empty t.made.templates.items) t.made.services.items)) }
{
    let made = convert(alloc, sources_of(manifests))?;
    let known = known_of(alloc, made.templates.as_slice())?;
    let are_taken = are_all_taken(alloc, &made, &known)?;
    let report = report_of(alloc, manifests, &made, &known)?;
    let FilesReport {
        found,
        notes,
        warnings,
    } = report;
    Ok(Translated {
        made,
        found,
        notes,
        warnings,
        are_taken,
    })
}

// Whether a desk takes each manifest that is made, and one with these templates the attempts of
// each service.
fn are_all_taken(alloc: Global, made: &Converted, known: &Templates) -> Result<bool, Memory>
    ensures templates { IfOk result (λ are.
        IsTrue are → IsTrue (are_taken made.now.templates.items)) }
    ensures services { IfOk result (λ are.
        IsTrue are → IsTrue (are_taken made.now.services.items)) }
    ensures attempts { IfOk result (λ are.
        IsTrue are → IsTrue (are_bound known.now made.now.services.items)) }
{
    Ok(
        are_taken(alloc, made.templates.as_slice())?
            && are_taken(alloc, made.services.as_slice())?
            && are_bound(alloc, known, made.services.as_slice())?,
    )
}

// Whether a desk takes each of these manifests.
fn are_taken(alloc: Global, made: &[Made]) -> Result<bool, Memory>
    ensures { IfOk result (λ are. are ≡ are_taken made.now) }
{
    for manifest in made {
        if !check(alloc, manifest.json.as_bytes())?.is_ok() {
            return Ok(false);
        }
    }
    Ok(true)
}

// The templates of a desk to which these manifests are registered.
fn known_of(alloc: Global, made: &[Made]) -> Result<Templates, Memory>
    ensures { IfOk result (λ known. known ≡ known_of map.empty made.now) }
{
    let mut known = Templates::new(alloc);
    for manifest in made {
        add_made(alloc, &mut known, manifest)?;
    }
    Ok(known)
}

// Adds the template that this manifest registers, if a desk takes it.
#[tactic(auto, unfolding(crate::specs::Taken::with_made))]
fn add_made(alloc: Global, known: &mut Templates, manifest: &Made) -> Result<(), Memory>
    ensures { IfOk result (λ _. known.new ≡ with_made known.old manifest.now) }
{
    add_template(alloc, known, manifest.json.as_bytes())
}

// Whether a desk with these templates refuses no attempt of these services as it is bound.
fn are_bound(alloc: Global, known: &Templates, made: &[Made]) -> Result<bool, Memory>
    ensures { IfOk result (λ are. are ≡ are_bound known.now made.now) }
{
    for manifest in made {
        if !is_bound(alloc, known, manifest)? {
            return Ok(false);
        }
    }
    Ok(true)
}

// Whether a desk with these templates refuses no attempt of this service as it is bound.
fn is_bound(alloc: Global, known: &Templates, manifest: &Made) -> Result<bool, Memory>
    ensures { IfOk result (λ is. is ≡ is_made_bound known.now manifest.now) }
{
    Ok(check_attempt(alloc, known, manifest.json.as_bytes())?.is_ok())
}

// The documents: none if a file was not read to its end, since others may need what it has.
fn sources_of(manifests: &Manifests) -> &[Source] {
    if manifests.found.is_empty() {
        manifests.sources.as_slice()
    } else {
        &[]
    }
}
