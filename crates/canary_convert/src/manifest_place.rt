//! Where something stands.
use crate::draft::Draft;
use std::alloc::Global;

/// Where something stands: in which source, at which item of a list of documents, and under which
/// keys.
#[derive(Clone, Copy)]
pub(crate) struct ManifestPlace {
    /// The index of the source.
    pub(crate) source: u32,
    // The index of the document, if the source is a list of documents.
    item: Option<usize>,
    // The keys to a list, and an index in it.
    list: &'static str,
    index: Option<usize>,
    // The keys that follow, to another list, and an index in that.
    part: &'static str,
    inner: &'static str,
    inner_index: Option<usize>,
    // The key that follows.
    end: &'static str,
}

impl ManifestPlace {
    /// A document.
    pub(crate) fn of(source: u32, item: Option<usize>) -> ManifestPlace {
        ManifestPlace {
            source,
            item,
            list: "",
            index: None,
            part: "",
            inner: "",
            inner_index: None,
            end: "",
        }
    }

    /// What stands under these keys of a document.
    pub(crate) fn at(self, list: &'static str) -> ManifestPlace {
        ManifestPlace { list, ..self }
    }

    /// An item of the list under these keys of a document.
    pub(crate) fn item(self, list: &'static str, index: usize) -> ManifestPlace {
        ManifestPlace {
            list,
            index: Some(index),
            ..self
        }
    }

    /// What stands under these keys of that, which begin with a point.
    pub(crate) fn part(self, part: &'static str) -> ManifestPlace {
        ManifestPlace { part, ..self }
    }

    /// An item of the list under these keys of that, which begin with a point.
    pub(crate) fn inner(self, inner: &'static str, index: usize) -> ManifestPlace {
        ManifestPlace {
            inner,
            inner_index: Some(index),
            ..self
        }
    }

    /// What stands under that key of that.
    pub(crate) fn end(self, end: &'static str) -> ManifestPlace {
        ManifestPlace { end, ..self }
    }

    /// The keys and indices that lead there.
    pub(crate) fn path(self, alloc: Global) -> Draft {
        let mut out = Draft::new(alloc);
        put_item(&mut out, self.item, self.is_document());
        out.put(self.list);
        out.put_index(self.index);
        out.put(self.part);
        out.put(self.inner);
        out.put_index(self.inner_index);
        put_end(&mut out, self.end);
        out
    }

    // Whether no keys lead on from the document, but that at the end.
    fn is_document(self) -> bool {
        self.list.is_empty() && self.part.is_empty() && self.inner.is_empty()
    }

    /// The same with the key of a member of what stands there.
    pub(crate) fn path_to(self, alloc: Global, key: &str) -> Draft {
        let mut out = self.path(alloc);
        put_end(&mut out, key);
        out
    }
}

// Appends an item of a list of documents, if there is one, and the point before what follows it.
fn put_item(out: &mut Draft, item: Option<usize>, is_last: bool) {
    if item.is_some() {
        out.put("items");
        out.put_index(item);
        out.put(if is_last { "" } else { "." });
    }
}

// Appends a point and that key, if there is one.
fn put_end(out: &mut Draft, end: &str) {
    if !end.is_empty() {
        out.put(".");
        out.put(end);
    }
}
