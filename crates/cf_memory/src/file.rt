//! Files in memory.
ghost use Rattle.std.specs.Prelude.{◌≡◌, position};
ghost use Rattle.std.specs.Str.{bytes_eq};
ghost use Rattle.cf_memory.specs.Texts.{text_at as the_text_at};

/// A file: its name and its text.
#[repr(C)]
#[derive(Clone, Copy)]
pub struct File<'a> {
    pub name: &'a [u8],
    pub text: &'a [u8],
}

/// Where a file of this name first stands.
pub(crate) fn place_of(files: &[File<'_>], name: &[u8]) -> Option<usize>
    ensures { result ≡ position (λ f. bytes_eq f.name.now name.now) files.now }
{
    files.iter().position(|file| file.name == name)
}

/// The text of the file at that place, and nothing past the last.
pub(crate) fn text_at<'a>(files: &'a [File<'a>], place: usize) -> &'a [u8]
    ensures { result.now ≡ the_text_at files.now place }
{
    match files.get(place) {
        Some(file) => file.text,
        None => &[],
    }
}
