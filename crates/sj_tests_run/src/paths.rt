mod finds;
mod texts;

/// A document with keys of each kind that RFC 6901, section 5, has examples of.
const DOCUMENT: &str =
    r#"{"foo":["bar","baz"],"":0,"a/b":1,"c%d":2,"e^f":3,"g|h":4,"i\\j":5,"k\"l":6," ":7,"m~n":8}"#;
