//! Patch documents that are no list of operations.

use super::{borrowed, owned};
use sj_document::Document;
use sj_object::KeyText;
use sj_patch::operations_of;
use sj_text_core::Writable;
use std::alloc::Global;
use std::test::Fail;

/// Patch documents, and what is said of them (RFC 6902, sections 3 and 4).
const REFUSED: [(&str, &str); 12] = [
    (r#"{"op":"remove","path":""}"#, "a patch is an array"),
    (
        r#"[{"op":"remove","path":"/a"},7]"#,
        "operation 1: no object",
    ),
    (
        r#"[{"path":"/a"}]"#,
        r#"operation 0: no "op" that names an operation"#,
    ),
    (
        r#"[{"op":"spam","path":"/a"}]"#,
        r#"operation 0: no "op" that names an operation"#,
    ),
    (
        r#"[{"op":1,"path":"/a"}]"#,
        r#"operation 0: no "op" that names an operation"#,
    ),
    (
        r#"[{"op":"remove"}]"#,
        r#"operation 0: no "path" that is a pointer"#,
    ),
    (
        r#"[{"op":"remove","path":"a"}]"#,
        r#"operation 0: no "path" that is a pointer"#,
    ),
    (
        r#"[{"op":"test","path":"/~2","value":1}]"#,
        r#"operation 0: no "path" that is a pointer"#,
    ),
    (
        r#"[{"op":"move","path":"/a"}]"#,
        r#"operation 0: no "from" that is a pointer"#,
    ),
    (
        r#"[{"op":"copy","path":"/a","from":null}]"#,
        r#"operation 0: no "from" that is a pointer"#,
    ),
    (
        r#"[{"op":"add","path":"/a"}]"#,
        r#"operation 0: no "value""#,
    ),
    (
        r#"[{"op":"test","path":"","value":null},{"op":"replace","path":""}]"#,
        r#"operation 1: no "value""#,
    ),
];

/// Whether the document is refused so, and handed back as it was.
fn is_refused<T: KeyText + Drop>(
    alloc: Global,
    listed: Document<T>,
    text: &str,
    said: &str,
) -> Result<bool, Fail> {
    match operations_of(alloc, listed) {
        Ok(_) => Ok(false),
        Err(refused) => {
            let told = format!(in alloc; "{}", refused.why)?;
            Ok(told.as_str() == said && refused.value.encode(alloc)?.as_str() == text)
        }
    }
}

#[test]
fn faults_are_named(rt: HostRuntime) -> Result<(), Fail> {
    let alloc = rt.alloc();
    for &(text, said) in &REFUSED {
        assert!(rt; is_refused(alloc, owned(alloc, text)?, text, said)?);
        assert!(rt; is_refused(alloc, borrowed(alloc, text)?, text, said)?);
    }
    Ok(())
}
