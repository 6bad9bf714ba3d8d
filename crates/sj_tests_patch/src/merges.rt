//! Merge patches.

use super::{borrowed, owned};
use sj_document::Document;
use sj_patch::{OwnedText, merge};
use std::alloc::Global;
use std::test::Fail;

/// Targets, patches and results: RFC 7396, appendix A.
const MERGES: [(&str, &str, &str); 15] = [
    (r#"{"a":"b"}"#, r#"{"a":"c"}"#, r#"{"a":"c"}"#),
    (r#"{"a":"b"}"#, r#"{"b":"c"}"#, r#"{"a":"b","b":"c"}"#),
    (r#"{"a":"b"}"#, r#"{"a":null}"#, r#"{}"#),
    (r#"{"a":"b","b":"c"}"#, r#"{"a":null}"#, r#"{"b":"c"}"#),
    (r#"{"a":["b"]}"#, r#"{"a":"c"}"#, r#"{"a":"c"}"#),
    (r#"{"a":"c"}"#, r#"{"a":["b"]}"#, r#"{"a":["b"]}"#),
    (
        r#"{"a":{"b":"c"}}"#,
        r#"{"a":{"b":"d","c":null}}"#,
        r#"{"a":{"b":"d"}}"#,
    ),
    (r#"{"a":[{"b":"c"}]}"#, r#"{"a":[1]}"#, r#"{"a":[1]}"#),
    (r#"["a","b"]"#, r#"["c","d"]"#, r#"["c","d"]"#),
    (r#"{"a":"b"}"#, r#"["c"]"#, r#"["c"]"#),
    (r#"{"a":"foo"}"#, "null", "null"),
    (r#"{"a":"foo"}"#, r#""bar""#, r#""bar""#),
    (r#"{"e":null}"#, r#"{"a":1}"#, r#"{"e":null,"a":1}"#),
    (r#"[1,2]"#, r#"{"a":"b","c":null}"#, r#"{"a":"b"}"#),
    ("{}", r#"{"a":{"bb":{"ccc":null}}}"#, r#"{"a":{"bb":{}}}"#),
];

/// Whether the merged target is what is wanted.
fn is_merged<T: OwnedText + Drop>(
    alloc: Global,
    mut target: Document<T>,
    patch: Document<T>,
    wanted: &Document<T>,
) -> Result<bool, Fail> {
    merge(alloc, &mut target, patch)?;
    Ok(target == *wanted)
}

#[test]
fn merges(rt: HostRuntime) -> Result<(), Fail> {
    let alloc = rt.alloc();
    for &(target, patch, wanted) in &MERGES {
        let result = owned(alloc, wanted)?;
        assert!(rt; is_merged(alloc, owned(alloc, target)?, owned(alloc, patch)?, &result)?);
        let result = borrowed(alloc, wanted)?;
        assert!(rt;
            is_merged(
                alloc,
                borrowed(alloc, target)?,
                borrowed(alloc, patch)?,
                &result
            )?
        );
    }
    Ok(())
}
