//! Kinds of text, by the words that they are made of.

use crate::texts::Mixture;
use crate::words;

/// Prose, and nothing else.
pub(crate) const PROSE: Mixture = Mixture {
    common: words::PROSE,
    rare: words::PROSE,
    one_in: 2,
};

/// Prose with some tags and careless marks.
pub(crate) const MARKUP: Mixture = Mixture {
    common: words::PROSE,
    rare: words::MARKUP,
    one_in: 30,
};

/// The same in many scripts.
pub(crate) const MANY_SCRIPTS: Mixture = Mixture {
    common: words::MANY_SCRIPTS,
    rare: words::MARKUP,
    one_in: 30,
};

/// Little but special bytes.
pub(crate) const DENSE: Mixture = Mixture {
    common: words::DENSE,
    rare: words::PROSE,
    one_in: 8,
};

/// A script, with openings that its element's end could be taken for.
pub(crate) const SCRIPT: Mixture = Mixture {
    common: words::SCRIPT,
    rare: words::SCRIPT_OPENINGS,
    one_in: 12,
};

/// A style, with openings that its element's end could be taken for.
pub(crate) const STYLE: Mixture = Mixture {
    common: words::STYLE,
    rare: words::STYLE_OPENINGS,
    one_in: 12,
};

/// Prose with the common references.
pub(crate) const COMMON_REFERENCES: Mixture = Mixture {
    common: words::PROSE,
    rare: words::COMMON_REFERENCES,
    one_in: 6,
};

/// Prose with references by any names.
pub(crate) const NAMED_REFERENCES: Mixture = Mixture {
    common: words::PROSE,
    rare: words::NAMED_REFERENCES,
    one_in: 5,
};

/// Words of many scripts with references by numbers.
pub(crate) const NUMBERED_REFERENCES: Mixture = Mixture {
    common: words::MANY_SCRIPTS,
    rare: words::NUMBERED_REFERENCES,
    one_in: 5,
};

/// Ampersands that begin nothing, and hardly a `;`.
pub(crate) const BARE_AMPERSANDS: Mixture = Mixture {
    common: words::BARE_AMPERSANDS,
    rare: words::PROSE,
    one_in: 2,
};
