//! The elements and the attributes that a page may have, of HTML and of SVG.
ghost use Rattle.std.specs.Prelude.{◌≡◌};
ghost use Rattle.canary_page_html.specs.Pages.{attribute_name, element_name};

/// An element. None of them runs a script or fetches anything.
#[derive(Clone, Copy, Debug, PartialEq, Eq)]
pub enum Element {
    Title,
    Body,
    Main,
    Navigation,
    Header,
    Heading1,
    Heading2,
    Heading3,
    Paragraph,
    List,
    Steps,
    Item,
    Span,
    Strong,
    Small,
    Block,
    Article,
    Section,
    Figure,
    Caption,
    Drawing,
    Line,
    Path,
    Circle,
    Rectangle,
    Label,
    Details,
    Summary,
    Table,
    Row,
    Heading,
    Cell,
    Time,
    Code,
    /// With a place of the page (`Piece::Link`), a link to it.
    Anchor,
}

impl Element {
    /// Its name in a tag.
    pub fn name(self) -> &'static str
        ensures { result.now ≡ element_name self }
    {
        match self {
            Element::Title => "title",
            Element::Body => "body",
            Element::Main => "main",
            Element::Navigation => "nav",
            Element::Header => "header",
            Element::Heading1 => "h1",
            Element::Heading2 => "h2",
            Element::Heading3 => "h3",
            Element::Paragraph => "p",
            Element::List => "ul",
            Element::Steps => "ol",
            Element::Item => "li",
            Element::Span => "span",
            Element::Strong => "b",
            Element::Small => "small",
            Element::Block => "div",
            Element::Article => "article",
            Element::Section => "section",
            Element::Figure => "figure",
            Element::Caption => "figcaption",
            Element::Drawing => "svg",
            Element::Line => "line",
            Element::Path => "path",
            Element::Circle => "circle",
            Element::Rectangle => "rect",
            Element::Label => "text",
            Element::Details => "details",
            Element::Summary => "summary",
            Element::Table => "table",
            Element::Row => "tr",
            Element::Heading => "th",
            Element::Cell => "td",
            Element::Time => "time",
            Element::Code => "code",
            Element::Anchor => "a",
        }
    }
}

/// An attribute. None of them runs a script, fetches anything or leads to another page.
#[derive(Clone, Copy, Debug, PartialEq, Eq)]
pub enum Attribute {
    Class,
    Id,
    Title,
    Role,
    Spoken,
    Present,
    Scope,
    Columns,
    Moment,
    View,
    Width,
    Height,
    Left,
    Top,
    FromLeft,
    ToLeft,
    FromTop,
    ToTop,
    CenterLeft,
    CenterTop,
    Radius,
    Data,
}

impl Attribute {
    /// Its name in a tag.
    pub fn name(self) -> &'static str
        ensures { result.now ≡ attribute_name self }
    {
        match self {
            Attribute::Class => "class",
            Attribute::Id => "id",
            Attribute::Title => "title",
            Attribute::Role => "role",
            Attribute::Spoken => "aria-label",
            Attribute::Present => "aria-current",
            Attribute::Scope => "scope",
            Attribute::Columns => "colspan",
            Attribute::Moment => "datetime",
            Attribute::View => "viewBox",
            Attribute::Width => "width",
            Attribute::Height => "height",
            Attribute::Left => "x",
            Attribute::Top => "y",
            Attribute::FromLeft => "x1",
            Attribute::ToLeft => "x2",
            Attribute::FromTop => "y1",
            Attribute::ToTop => "y2",
            Attribute::CenterLeft => "cx",
            Attribute::CenterTop => "cy",
            Attribute::Radius => "r",
            Attribute::Data => "d",
        }
    }
}
