/// Returns the first of some things that is written so, which a function tells, and else what else it may be.
macro_rules! first_of {
    ($is_written:ident, $text:expr; $($thing:expr),+) => {
        first_of!($is_written, $text; $($thing),+; None)
    };
    ($is_written:ident, $text:expr; $($thing:expr),+; $other:expr) => {{
        $(
            if $is_written($thing, $text) {
                return Some($thing);
            }
        )+
        $other
    }};
}

pub(crate) use first_of;
