//! What to do with a file that is no manifest in JSON, if it is one in another form.
use crate::body::is_command;
use crate::check::has_in_spec;
use canary_canonical::form::only_member;
use canary_manifest::member::member_of;
use serde_json::Value;

const MARK: &str = "save the file in UTF-8 without a byte order mark";

const YAML: &str = "make JSON of YAML, by yq -o=json FILE (yq 4), or with Debian's python3-yaml by \
    python3 -c 'import json, sys, yaml; \
    print(json.dumps(yaml.safe_load(sys.stdin), default=str))' < FILE";

const DOCUMENTS: &str = "make JSON of one document at a time, as of the first \
    by yq -o=json 'select(di == 0)' FILE (yq 4), or with Debian's python3-yaml by \
    python3 -c 'import json, sys, yaml; \
    print(json.dumps(list(yaml.safe_load_all(sys.stdin))[0], default=str))' < FILE";

const TEXTS: &str = "check one document at a time: each manifest is a file of its own";

const KIND: &str = "write its kind: metrics are an AnalysisTemplate's, a strategy is a Rollout's";

const LIST: &str = "take one of its items, \
    as kubectl get analysistemplate NAME -o json or kubectl get rollout NAME -o json prints it";

const CLUSTER: &str = "write AnalysisTemplate for ClusterAnalysisTemplate: \
    the desk has templates of one kind";

const REQUEST: &str = "check the body of a request by canary check --request FILE";

// How a document of YAML begins.
const DOCUMENT: &str = "---";

// How manifests in YAML begin.
const FRONTS: [&str; 7] = [
    "apiVersion:",
    "kind:",
    "metadata:",
    "spec:",
    "---",
    "%YAML",
    "#",
];

/// Of a text that is no JSON.
pub(crate) fn instead_of_text(text: &[u8]) -> Option<&'static str> {
    if begins_with_mark(text) {
        return Some(MARK);
    }
    let text = str::from_utf8(text).ok()?.trim_start();
    if text.starts_with("{") {
        return if has_texts(text) { Some(TEXTS) } else { None };
    }
    if FRONTS.iter().any(|front| text.starts_with(*front)) {
        return Some(if has_documents(text) { DOCUMENTS } else { YAML });
    }
    None
}

// Whether it has several texts of JSON: a line that is not the first begins as an object does, and
// not within one, or parts documents.
fn has_texts(text: &str) -> bool {
    text.lines()
        .skip(1)
        .any(|line| line.starts_with("{") || line.starts_with(DOCUMENT))
}

// Whether it has several documents of YAML: one begins after lines of another.
fn has_documents(text: &str) -> bool {
    text.lines()
        .skip_while(|line| is_of_no_document(line))
        .any(|line| line.starts_with(DOCUMENT))
}

// Whether the line may stand before the first document of YAML.
fn is_of_no_document(line: &str) -> bool {
    line.is_empty() || line.starts_with("#") || line.starts_with("%") || line.starts_with(DOCUMENT)
}

// Whether it begins with the byte order mark of UTF-8 or of UTF-16.
fn begins_with_mark(text: &[u8]) -> bool {
    match text {
        [0xef, 0xbb, 0xbf, ..] => true,
        [0xfe, 0xff, ..] => true,
        [0xff, 0xfe, ..] => true,
        _ => false,
    }
}

/// Of a manifest of another kind.
pub(crate) fn instead_of_manifest(manifest: &Value) -> Option<&'static str> {
    match member_of(manifest, "kind") {
        Some(kind) => instead_of_kind(kind.as_str()?),
        None if has_in_spec(manifest, "metrics") => Some(KIND),
        None => instead_of_body(manifest),
    }
}

/// Of a kind that is neither of the two.
pub(crate) fn instead_of_kind(kind: &str) -> Option<&'static str> {
    match kind {
        "ClusterAnalysisTemplate" => Some(CLUSTER),
        "List" => Some(LIST),
        "AnalysisTemplateList" => Some(LIST),
        "RolloutList" => Some(LIST),
        _ => None,
    }
}

// Of the body of a request.
fn instead_of_body(value: &Value) -> Option<&'static str> {
    let (key, _) = only_member(value)?;
    if is_command(key) { Some(REQUEST) } else { None }
}
