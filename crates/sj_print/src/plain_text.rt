//! Texts that need no escape.

ghost use Rattle.sj_print.specs.inner.Runs.{IsAllPlain};

/// A text that is printed as it stands: without a quote, a backslash or a control byte.
#[derive(Clone, Copy, Debug)]
pub struct PlainText<'a> {
    pub text: &'a str,
    ghost plain: { IsAllPlain text.now },
}
