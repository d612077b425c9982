//! What callers may rest on, as functions that do nothing.
ghost use Rattle.std.specs.Prelude.{◌≡◌, ◌≢◌, ℕ, List, codes, true};
ghost use Rattle.std.specs.List.{list_all};
ghost use Rattle.canary_page_html.specs.declared.element.Attribute.{Attribute};
ghost use Rattle.canary_page_html.specs.Escaping.{escaped, is_harmless};
ghost use Rattle.canary_page_html.specs.Pages.{attribute_name};

/// An escaped text has no `<`, no `>`, no quote and no control byte, whatever the text is.
pub fn escaping()
    ensures harmless { (text : List ℕ) → list_all is_harmless (escaped text) ≡ true }
{}

/// No attribute is a `href`. That of a link is a piece of its own, which goes to a place of the
/// page itself.
pub fn links()
    ensures none_elsewhere { (a : Attribute) → attribute_name a ≢ codes "href" }
{}
