ghost use Rattle.std.specs.Prelude.{◌≡◌, map, string_bytes};
ghost use Rattle.zk_show_view.specs.Views.{view_of};

/// What is shown of a run.
#[derive(Clone, Copy, PartialEq, Eq)]
pub enum View {
    /// `text`: a chart in lines of at most 120 characters.
    Text,
    /// `svg`: a picture that a browser shows.
    Svg,
    /// `json`: the rows, bars, arrows and answers as a value in JSON, for other tools.
    Json,
    /// `page`: one file that any browser opens, to go through the run step by step.
    Page,
    /// `why`: how the run ended, in sentences.
    Why,
}

/// The view that these words ask for, if they are one of its names.
pub fn view_of(words: &[String]) -> Option<View>
    ensures { result ≡ view_of (map string_bytes words.now) }
{
    match words {
        [word] if word.as_bytes() == b"text".as_slice() => Some(View::Text),
        [word] if word.as_bytes() == b"svg".as_slice() => Some(View::Svg),
        [word] if word.as_bytes() == b"json".as_slice() => Some(View::Json),
        [word] if word.as_bytes() == b"page".as_slice() => Some(View::Page),
        [word] if word.as_bytes() == b"why".as_slice() => Some(View::Why),
        _ => None,
    }
}
