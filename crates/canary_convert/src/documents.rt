//! The documents of the sources.
use crate::json::{list_at, member, text_at};
use crate::manifest_place::ManifestPlace;
use crate::source::Source;
use canary_base::error::Memory;
use serde_json::Value;
use std::alloc::Global;

/// A document: that of a source, or an item of its list.
#[derive(Clone, Copy)]
pub(crate) struct ManifestObject<'a> {
    pub(crate) source: u32,
    item: Option<usize>,
    pub(crate) value: &'a Value,
}

impl<'a> ManifestObject<'a> {
    /// Its kind, empty if it has none.
    pub(crate) fn kind(&self) -> &'a str {
        text_at(self.value, "kind")
    }

    /// Its name, empty if it has none.
    pub(crate) fn name(&self) -> &'a str {
        match member(self.value, "metadata") {
            Some(metadata) => text_at(metadata, "name"),
            None => "",
        }
    }

    /// The list under that key of its `spec`.
    pub(crate) fn list(&self, key: &str) -> Option<&'a Vec<Value>> {
        list_at(member(self.value, "spec")?, key)
    }

    /// Where it stands.
    pub(crate) fn place(&self) -> ManifestPlace {
        ManifestPlace::of(self.source, self.item)
    }
}

/// The documents of these sources, nulls among them.
pub(crate) fn documents_of<'a>(
    alloc: Global,
    sources: &'a [Source],
) -> Result<Vec<ManifestObject<'a>>, Memory> {
    let mut documents = Vec::new(alloc);
    for (index, source) in sources.iter().enumerate() {
        let source_index = u32::try_from(index).unwrap_or(u32::MAX);
        match items_of(&source.value) {
            Some(items) => push_items(&mut documents, source_index, items)?,
            None => documents.push(ManifestObject {
                source: source_index,
                item: None,
                value: &source.value,
            })?,
        }
    }
    Ok(documents)
}

// Adds each item of the list of that source.
fn push_items<'a>(
    documents: &mut Vec<ManifestObject<'a>>,
    source: u32,
    items: &'a Vec<Value>,
) -> Result<(), Memory> {
    for (index, value) in items.iter().enumerate() {
        documents.push(ManifestObject {
            source,
            item: Some(index),
            value,
        })?;
    }
    Ok(())
}

// The items of a list of documents.
fn items_of(value: &Value) -> Option<&Vec<Value>> {
    if text_at(value, "kind") == "List" {
        member(value, "items")?.as_array()
    } else {
        None
    }
}

/// The index of the first document of that kind and name.
pub(crate) fn index_of(documents: &[ManifestObject], kind: &str, name: &str) -> Option<usize> {
    for (index, document) in documents.iter().enumerate() {
        if document.kind() == kind && document.name() == name {
            return Some(index);
        }
    }
    None
}
