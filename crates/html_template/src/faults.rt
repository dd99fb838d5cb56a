//! Why there is no template, and why no page.
use std::alloc::AllocError;
use std::io;

/// Why a part is refused.
#[derive(Clone, Copy, Debug, PartialEq, Eq)]
pub enum PartFault {
    /// Markup that the grammar does not read.
    Malformed,
    /// A slot where no text may stand, as in a tag's name or a script's code.
    NoPlace,
    /// A slot whose text would be read in a second language, as in `onclick`.
    Forbidden,
    /// Markup of a URL that holds a slot, and in that URL it has white space, a control, a `\`, or a
    /// reference other than `&amp;`; or it ends in a `%`, or in one and a hexadecimal digit, before a slot.
    /// Or, in the list of a `srcset`, a comma behind such a URL with neither white space nor the end of the
    /// value behind it.
    NotPlain,
    /// A slot where the scheme or the host of a URL is still open, or in a URL with another scheme than
    /// `http`, `https`, `mailto` and `tel`, but for the image of a `data:` URL on an element that only shows it;
    /// or the part before it is not the URL's beginning. Or markup with a `:` in the first segment of a relative
    /// path, behind a slot of this segment, or with a `/` in the path of a `mailto:`, a `tel:` or an image,
    /// behind a slot of this path.
    NotFixed,
    /// A segment of a URL's path ends in the part, or a slot stands in one, that with some text may read
    /// as `.` or `..`: it has no other bytes than those of dots.
    DotSegment,
    /// The part goes on with a URL that a slot began, other than by markup whose first byte is a `?`, a `#`, an
    /// ASCII letter, a digit, `_`, or a `/` with no second one. Such a slot is the whole URL.
    AfterLink,
    /// The part goes on with the value of a declaration that holds a slot, other than by ASCII letters, digits,
    /// white space, `-`, `_`, `#`, `%`, `.`, `,`, `+` and `!`, up to the `;` or the quote mark that ends it.
    AfterStyleValue,
}

/// Why parts are no template.
#[derive(Clone, Copy, Debug, PartialEq, Eq)]
pub enum TemplateFault {
    /// The first part that is refused, counted from 0, and why.
    Part(usize, PartFault),
    /// The parts end within a tag, a reference, or an element whose content is read its own way.
    Unfinished,
    /// A growth was refused.
    Memory,
}

impl From<AllocError> for TemplateFault {
    ghost use Rattle.std.specs.Prelude.{◌≡◌};
    ghost use Rattle.html_template.specs.declared.faults.TemplateFault.TheVariants.{Memory};

    ghost from_gives = { λ _ fault. fault ≡ Memory };

    fn from(_refusal: AllocError) -> TemplateFault {
        TemplateFault::Memory
    }
}

/// Why a text does not fill its slot.
#[derive(Clone, Copy, Debug, PartialEq, Eq)]
pub enum TextFault {
    /// It is for a value without quotes, and empty.
    EmptyUnquoted,
    /// It is for a segment of a URL's path that begins with it, and empty.
    EmptySegment,
    /// It is for such a segment, and `.` or `..`, which no encoding keeps from having its meaning.
    DotSegment,
    /// It is for a whole URL, and its scheme is none of `http`, `https` and `mailto`.
    NotALink,
    /// It is for a whole URL that the page runs, as of a script, and leads to no path of the page's own host:
    /// it does not begin with one `/`, or has white space, a control, a `\` or a segment that may be `.` or `..`.
    NotAnOwnPath,
    /// It is for the beginning of a URL, and is no base before what follows: it is not empty, and begins
    /// neither with one `/` nor with `http://` or `https://` and a host; or has white space, a control, a `\`,
    /// a `?`, a `#` or a segment that may be `.` or `..`; or ends in `/` before a `/`, or in none before a segment.
    NotABase,
    /// It is for the beginning of a URL that the page runs, as of a script, and is no base of the page's own
    /// host: none that is empty or begins with one `/`.
    NotAnOwnBase,
    /// It is for the value of a declaration, and has another byte than those of ASCII letters, digits, white
    /// space, `-`, `_`, `#`, `%`, `.`, `,` and `+`.
    NotAStyleValue,
}

/// Why texts do not fill a template.
#[derive(Clone, Copy, Debug, PartialEq, Eq)]
pub enum FillFault {
    /// There is not one text for each slot.
    WrongCount,
    /// The first text that does not fill its slot, counted from 0, and why.
    Text(usize, TextFault),
    /// A growth was refused, or the length would pass the greatest `usize`.
    Memory,
}

impl From<AllocError> for FillFault {
    ghost use Rattle.std.specs.Prelude.{◌≡◌};
    ghost use Rattle.html_template.specs.declared.faults.FillFault.TheVariants.{Memory};

    ghost from_gives = { λ _ fault. fault ≡ Memory };

    fn from(_refusal: AllocError) -> FillFault {
        FillFault::Memory
    }
}

/// Why a page was not written whole. Of `F` are the faults of the texts.
#[derive(Debug, Drop)]
pub enum WriteFault<F> {
    /// The texts do not fill the template. Nothing was written.
    Texts(F),
    /// The writer's own fault, after a beginning of the page.
    Writer(io::Error),
}
