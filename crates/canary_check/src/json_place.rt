//! Where a finding is.

/// Where an object of a text stands, and whose it is. It is made of keys that others hold.
#[derive(Clone, Copy)]
pub(crate) struct JsonPlace<'a> {
    /// The keys that lead to the manifest or the command, if that is not the whole text.
    pub(crate) root: &'a str,
    /// The keys of an object there, and those of an object in it.
    pub(crate) outer: &'static str,
    pub(crate) part: &'static str,
    /// The key of a list there, empty if there is none, and the index of an item.
    pub(crate) list: &'static str,
    pub(crate) index: usize,
    /// The key of an object there.
    pub(crate) inner: &'static str,
    /// The key of a list there, empty if there is none, and the index of an item.
    pub(crate) inner_list: &'static str,
    pub(crate) inner_index: usize,
    /// The name of the metric, empty if it has none.
    pub(crate) metric: &'a str,
}

impl<'a> JsonPlace<'a> {
    /// The place to which these keys lead; with none, that of the whole text.
    pub(crate) fn at(root: &'a str) -> JsonPlace<'a> {
        JsonPlace {
            root,
            outer: "",
            part: "",
            list: "",
            index: 0,
            inner: "",
            inner_list: "",
            inner_index: 0,
            metric: "",
        }
    }

    /// The place of an item of the list under this key.
    pub(crate) fn item(self, key: &'static str, index: usize) -> JsonPlace<'a> {
        if self.list.is_empty() && self.inner.is_empty() {
            return JsonPlace {
                list: key,
                index,
                ..self
            };
        }
        JsonPlace {
            inner_list: key,
            inner_index: index,
            ..self
        }
    }

    /// The place of the member under this key.
    pub(crate) fn member(self, key: &'static str) -> JsonPlace<'a> {
        if self.list.is_empty() && self.outer.is_empty() {
            return JsonPlace { outer: key, ..self };
        }
        if self.list.is_empty() && self.part.is_empty() {
            return JsonPlace { part: key, ..self };
        }
        JsonPlace { inner: key, ..self }
    }

    /// The same place, in a metric of that name.
    pub(crate) fn of_metric(self, metric: &'a str) -> JsonPlace<'a> {
        JsonPlace { metric, ..self }
    }
}
