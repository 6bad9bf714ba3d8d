//! Patches that are done, and patches that leave the document.

use super::{borrowed, owned};
use sj_document::Document;
use sj_patch::{OwnedText, PatchFault, PatchReadFault, operations_of, patch};
use sj_text_core::Writable;
use std::alloc::Global;
use std::test::Fail;

/// Documents, patches and results: RFC 6902, appendix A, those that have a result.
const DONE: [(&str, &str, &str); 13] = [
    (
        r#"{"foo":"bar"}"#,
        r#"[{"op":"add","path":"/baz","value":"qux"}]"#,
        r#"{"baz":"qux","foo":"bar"}"#,
    ),
    (
        r#"{"foo":["bar","baz"]}"#,
        r#"[{"op":"add","path":"/foo/1","value":"qux"}]"#,
        r#"{"foo":["bar","qux","baz"]}"#,
    ),
    (
        r#"{"baz":"qux","foo":"bar"}"#,
        r#"[{"op":"remove","path":"/baz"}]"#,
        r#"{"foo":"bar"}"#,
    ),
    (
        r#"{"foo":["bar","qux","baz"]}"#,
        r#"[{"op":"remove","path":"/foo/1"}]"#,
        r#"{"foo":["bar","baz"]}"#,
    ),
    (
        r#"{"baz":"qux","foo":"bar"}"#,
        r#"[{"op":"replace","path":"/baz","value":"boo"}]"#,
        r#"{"baz":"boo","foo":"bar"}"#,
    ),
    (
        r#"{"foo":{"bar":"baz","waldo":"fred"},"qux":{"corge":"grault"}}"#,
        r#"[{"op":"move","from":"/foo/waldo","path":"/qux/thud"}]"#,
        r#"{"foo":{"bar":"baz"},"qux":{"corge":"grault","thud":"fred"}}"#,
    ),
    (
        r#"{"foo":["all","grass","cows","eat"]}"#,
        r#"[{"op":"move","from":"/foo/1","path":"/foo/3"}]"#,
        r#"{"foo":["all","cows","eat","grass"]}"#,
    ),
    (
        r#"{"baz":"qux","foo":["a",2,"c"]}"#,
        r#"[{"op":"test","path":"/baz","value":"qux"},{"op":"test","path":"/foo/1","value":2}]"#,
        r#"{"baz":"qux","foo":["a",2,"c"]}"#,
    ),
    (
        r#"{"foo":"bar"}"#,
        r#"[{"op":"add","path":"/child","value":{"grandchild":{}}}]"#,
        r#"{"foo":"bar","child":{"grandchild":{}}}"#,
    ),
    (
        r#"{"foo":"bar"}"#,
        r#"[{"op":"add","path":"/baz","value":"qux","xyz":123}]"#,
        r#"{"foo":"bar","baz":"qux"}"#,
    ),
    (
        r#"{"/":9,"~1":10}"#,
        r#"[{"op":"test","path":"/~01","value":10}]"#,
        r#"{"/":9,"~1":10}"#,
    ),
    (
        r#"{"foo":["bar"]}"#,
        r#"[{"op":"add","path":"/foo/-","value":["abc","def"]}]"#,
        r#"{"foo":["bar",["abc","def"]]}"#,
    ),
    (
        r#"{"foo":["bar"]}"#,
        r#"[{"op":"copy","from":"/foo","path":"/foo/0"}]"#,
        r#"{"foo":[["bar"],"bar"]}"#,
    ),
];

/// Documents, patches and what is said of them: of RFC 6902 appendix A.9, A.12 and A.15, and the
/// rules of sections 4 and 5; values that are refused where they are moved to, and moves of each kind
/// and removals in one container after another that are undone.
const FAULTS: [(&str, &str, &str); 13] = [
    (
        r#"{"baz":"qux"}"#,
        r#"[{"op":"test","path":"/baz","value":"bar"}]"#,
        "operation 0: the value differs",
    ),
    (
        r#"{"foo":"bar"}"#,
        r#"[{"op":"add","path":"/baz/bat","value":"qux"}]"#,
        "operation 0: nothing stands there",
    ),
    (
        r#"{"/":9,"~1":10}"#,
        r#"[{"op":"test","path":"/~01","value":"10"}]"#,
        "operation 0: the value differs",
    ),
    (
        r#"{"a":{"b":{"c":"c"}}}"#,
        r#"[{"op":"replace","path":"/a/b/c","value":42},{"op":"test","path":"/a/b/c","value":"C"}]"#,
        "operation 1: the value differs",
    ),
    (
        r#"{"foo":["bar"]}"#,
        r#"[{"op":"add","path":"/foo/2","value":1}]"#,
        "operation 0: no such place in the array",
    ),
    (
        r#"{"a":{"b":1}}"#,
        r#"[{"op":"move","from":"/a","path":"/a/b"}]"#,
        "operation 0: a value cannot be moved into itself",
    ),
    (
        r#"{"a":1}"#,
        r#"[{"op":"remove","path":""}]"#,
        "operation 0: the whole document cannot be removed",
    ),
    (
        r#"{"a":[1,2,3],"b":{"c":4,"d":5},"e":6}"#,
        r#"[{"op":"remove","path":"/a/0"},{"op":"move","from":"/b/c","path":"/a/-"},{"op":"add","path":"/f","value":7},{"op":"remove","path":"/b"},{"op":"copy","from":"/b","path":"/e"}]"#,
        "operation 4: nothing stands there",
    ),
    (
        r#"{"a":{"b":[1],"c":2},"d":[3]}"#,
        r#"[{"op":"move","from":"/a/b","path":"/d/2"}]"#,
        "operation 0: no such place in the array",
    ),
    (
        r#"{"a":[[1],2,3],"b":4}"#,
        r#"[{"op":"move","from":"/a/0","path":"/b/c"}]"#,
        "operation 0: nothing stands there",
    ),
    (
        r#"{"a":{"b":[1],"c":[2],"d":3},"e":[4,[5],6]}"#,
        r#"[{"op":"move","from":"/a/b","path":"/a/d"},{"op":"move","from":"/a/c","path":"/a/f"},{"op":"move","from":"/e/1","path":"/e/0"},{"op":"move","from":"/a/f","path":"/e/-"},{"op":"move","from":"/e","path":""},{"op":"remove","path":"/4"}]"#,
        "operation 5: nothing stands there",
    ),
    (
        r#"[[1],{"a":2}]"#,
        r#"[{"op":"move","from":"/0","path":"/0/b"},{"op":"move","from":"/1","path":"/0"}]"#,
        "operation 0: a value cannot be moved into itself",
    ),
    (
        r#"{"a":[1,2,3,4,5],"b":{"c":1,"d":2,"e":3,"f":4}}"#,
        r#"[{"op":"remove","path":"/a/4"},{"op":"remove","path":"/a/0"},{"op":"test","path":"/a/0","value":2},{"op":"remove","path":"/a/1"},{"op":"remove","path":"/b/d"},{"op":"remove","path":"/b/c"},{"op":"remove","path":"/b/f"},{"op":"remove","path":"/a/0"},{"op":"remove","path":"/a/0"},{"op":"remove","path":"/a/0"}]"#,
        "operation 9: nothing stands there",
    ),
];

/// Applies a patch document, and says what its refusal says.
fn applied<T: OwnedText + Drop>(
    alloc: Global,
    document: &mut Document<T>,
    listed: Document<T>,
) -> Result<Option<PatchFault>, Fail> {
    let operations = operations_of(alloc, listed).map_err(PatchReadFault::from)?;
    Ok(patch(alloc, document, operations.as_slice()).err())
}

/// Whether the patched document is what is wanted.
fn is_done<T: OwnedText + Drop>(
    alloc: Global,
    mut document: Document<T>,
    listed: Document<T>,
    wanted: &Document<T>,
) -> Result<bool, Fail> {
    let fault = applied(alloc, &mut document, listed)?;
    Ok(fault.is_none() && document == *wanted)
}

/// Whether the patch is refused so, and a second time, by what stands again, and the document prints
/// what it printed.
fn is_refused<T: OwnedText + Drop>(
    alloc: Global,
    mut document: Document<T>,
    listed: Document<T>,
    said: &str,
) -> Result<bool, Fail> {
    let before = document.encode(alloc)?;
    let operations = operations_of(alloc, listed).map_err(PatchReadFault::from)?;
    let answer = patch(alloc, &mut document, operations.as_slice());
    let again = patch(alloc, &mut document, operations.as_slice());
    let Err(fault) = answer else {
        return Ok(false);
    };
    let told = format!(in alloc; "{fault}")?;
    let is_kept = document.encode(alloc)?.as_str() == before.as_str();
    Ok(told.as_str() == said && again == answer && is_kept)
}

/// Whether the patched document is what is wanted, in each form.
fn is_done_in_both(
    alloc: Global,
    document: &str,
    listed: &str,
    wanted: &str,
) -> Result<bool, Fail> {
    let result = owned(alloc, wanted)?;
    let is_owned = is_done(
        alloc,
        owned(alloc, document)?,
        owned(alloc, listed)?,
        &result,
    )?;
    let result = borrowed(alloc, wanted)?;
    let is_borrowed = is_done(
        alloc,
        borrowed(alloc, document)?,
        borrowed(alloc, listed)?,
        &result,
    )?;
    Ok(is_owned && is_borrowed)
}

#[test]
fn patches_are_done(rt: HostRuntime) -> Result<(), Fail> {
    let alloc = rt.alloc();
    for &(document, listed, wanted) in &DONE {
        assert!(rt; is_done_in_both(alloc, document, listed, wanted)?);
    }
    Ok(())
}

#[test]
fn faults_leave_the_document(rt: HostRuntime) -> Result<(), Fail> {
    let alloc = rt.alloc();
    for &(document, listed, said) in &FAULTS {
        assert!(rt; is_refused(alloc, owned(alloc, document)?, owned(alloc, listed)?, said)?);
        assert!(rt;
            is_refused(
                alloc,
                borrowed(alloc, document)?,
                borrowed(alloc, listed)?,
                said
            )?
        );
    }
    Ok(())
}
