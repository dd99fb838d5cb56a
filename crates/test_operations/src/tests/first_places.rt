//! Bytes and the first place of a class in them, from a place on.
use hesc_core::Class;

/// Bytes, a place in them, and the first place of the class at or after it.
pub type Row = (&'static [u8], usize, usize);

/// The rows of a class.
pub fn rows(class: Class) -> &'static [Row] {
    match class {
        Class::TextMinimal => &TEXT_MINIMAL,
        Class::Text => &TEXT,
        Class::DoubleQuotedAttribute => &DOUBLE_QUOTED_ATTRIBUTE,
        Class::SingleQuotedAttribute => &SINGLE_QUOTED_ATTRIBUTE,
        Class::QuotedAttribute => &QUOTED_ATTRIBUTE,
        Class::Safe => &SAFE,
        Class::UnquotedAttribute => &UNQUOTED_ATTRIBUTE,
        Class::ScriptSingleQuoted => &SCRIPT_SINGLE_QUOTED,
        Class::ScriptDoubleQuoted => &SCRIPT_DOUBLE_QUOTED,
        Class::ScriptQuoted => &SCRIPT_QUOTED,
        Class::StyleSingleQuoted => &STYLE_SINGLE_QUOTED,
        Class::StyleDoubleQuoted => &STYLE_DOUBLE_QUOTED,
        Class::StyleQuoted => &STYLE_QUOTED,
    }
}

static TEXT_MINIMAL: [Row; 4] = [
    (b"", 0, 0),
    (b"c\xe3c9bb0XbZb\xc3b9a0YbZbc&cc0c099cY00", 15, 21),
    (
        b"X\xbc9c\xc3\xe3\xe3ba\xc3YX0Xb99\xc3aaaZ\xbca\xc39\xe3cXbYYac\xc399\xe3b00&c\xe3Xc9c\xc30\xc3b0Z0\xe3Yc\xc3YbZ9c",
        0,
        41,
    ),
    (
        b"accb0aX\xc3\xe3\xe3b&Yac\xe3XccZXbZZc9X9\xc3ab\xe39\xc3acccZ0X\xe3\xc3\xe3ZacX0X\xbccbXaa0\xe3YaY\xe3Zc",
        46,
        64,
    ),
];

static TEXT: [Row; 3] = [
    (b"Za\xc30\xe3bcbcc0ZYXY\xe1X\xc3Xc099&aaa090c", 0, 23),
    (
        b"9\xc3bY99\xe3bXcX0b9Y\xc3c0\xe3c\xc30a0\xe3X\xc30\xe399Y99XY\xc39Y\xe3\xc3\xc3Z\xc3Z\xe3X9c9Y0bYc\xe30cXY9\xc3\xe3<Y",
        1,
        63,
    ),
    (
        b"0<\xe3\xc3Y9caZc\xc3\xc3Z\xc39c9XZ\xc3YX0Y\xe1\xc3\xe3aZ\xe3\xc3",
        31,
        31,
    ),
];

static DOUBLE_QUOTED_ATTRIBUTE: [Row; 4] = [
    (
        b"Y\xc3ab\xe30b90b90Y\xc3Z!ZbZ0c\xc3\xe3Z9\"bXaa\xc30\xc3",
        0,
        25,
    ),
    (
        b"YYZ\xe3\xc3abZ\xe39X9YX9Xa0a\xe3\xc390a\xc39Xbca00abbXcY\xc3\xc3\xc3<90ZZY99caZ\xc3Y\xe3Xb\xe39\xc3!Yc",
        0,
        41,
    ),
    (b"\xc3ZZa0b0b\xe390ZbXcZba9\xe39Xaba90c\xe30Y\xa2&", 0, 32),
    (
        b"bX9XbaXX\xc3Z9XbZX0bYX\xc3Xaac9ca\xe3aaaXZ0\xe3Z\xc30Y0cYc9a09bX\xe3YX0YbaZ\xe3cbabZYb",
        65,
        65,
    ),
];

static SINGLE_QUOTED_ATTRIBUTE: [Row; 3] = [
    (b"0&a\xe30Ya", 0, 1),
    (
        b"bXY!c00Zc0ZX0caYY\xe3Z\xe3\xe3X9b9aX0\x7fa\xc30bYZZcZcaXba9Zca09\xe3\xe39\xe39Xa>Y\xe3Yb\xe3b",
        0,
        56,
    ),
    (b"<acZXcZXbbXY9a9X0'X'ZXZ\xc3\xc3ZX9bYZc9", 33, 33),
];

static QUOTED_ATTRIBUTE: [Row; 3] = [
    (b"baaX0cYZ>9c0X\xc39X0Za\xc300cc\xe3ZbcXbZ\xc3\xbc", 1, 8),
    (
        b"\xe39aZ9Ya\xc3ZbX9\xc3Yab90c!a\xe3XX0\xe3b\xc30\xe3900a\xe3\xe3Zaa0YY&aZ\xe39cX99bZb\xc39Ycb\xe3b0b",
        0,
        42,
    ),
    (b"!Y\xe3\xe39YZZcX9X09b0b\xc3XaYa0\xe3aX\xc39bYZXb", 5, 33),
];

static SAFE: [Row; 3] = [
    (
        b"X9\xe3cXX\xc3YX0\xe3X90\xe3Z>Y'cbXaX\xc3Y9cYbbX\xc3",
        0,
        16,
    ),
    (
        b"X\xe3\xe3cZcX09aYc0aY0XZYc\xe3b\xc3\xc3Y\xe3\xe3\xe3ZcbZ0Y\xc3Z\"9\xc300\xe39ccX9Yba99YaXY\xc3YYX\xe3Z09",
        0,
        36,
    ),
    (
        b"caZbY\xe3bYb0ac9\xc30\xc3aZc\xc3\xc30Ycaa\xc3\xe3cYX0b\xc3\xc3Z\xe3\xc3ZY0a9a09\xe3YYbY0ac9ZXc090cX",
        25,
        63,
    ),
];

static UNQUOTED_ATTRIBUTE: [Row; 3] = [
    (b"b0X>aYaac9\xe3Xa\xe3aY0ZZ\x02\xc3Z\xe3Y9bZ\xe3#b0", 1, 3),
    (
        b"\xc3cc\xc3abXaYaaYXX\xc3Ycc\xc3X0\xe3Z9\xc3ZX\xe3Z\xc3cYZab9Z\xc3Y\x0790!a\xe3ccZ0YYbaa0YY\x18c9\xc3Z\xc3Y",
        0,
        39,
    ),
    (
        b"c9b9XbYYZXXXc\xe3XZZbZXbXa0b\xe300XaY\x15a9\xe3baXabaccX\xe30bY%99\xc30\xe3b0b90099\x11a",
        64,
        64,
    ),
];

static SCRIPT_SINGLE_QUOTED: [Row; 4] = [
    (b"\x0f0\xc3Xc0Xb\xe300ZZ\xc3090Zcaa\xe3caZX9Y0\x04b", 0, 0),
    (
        b"XXbcZ\xe3ZYca9\xe3YXZYac\xc3a\xe39XaaX9\xe3\xe3a0\xc3cZbYYb\x1eXa9c\x11\xe3a0accX0YY\xe39Xc\xc300caaa",
        0,
        38,
    ),
    (
        b"aac0YbYX\xe39\xe3YbYYcXZcbccX\xe3acb\xe3Y\xe1a\xc3c\xc3\xc30ZZ0Z\xc3\xe30YXZYZbac\xc3X0a\xc3acZc09c\xe3\0",
        32,
        64,
    ),
    (b"c0c\x12a\xe3X\xc3X\x10c\xe3cXXacaX0ZZb0baX9bc99", 32, 32),
];

static SCRIPT_DOUBLE_QUOTED: [Row; 3] = [
    (b"\xe3\xc3XZ\xc3c9X\x130bXZ09Y0acbY0cYZ\xe309ba0ac", 0, 8),
    (
        b"0Y\xc3009Z\xe3\xc3\xe3aZYZc\xc3\xc30XX\xc3Y9\xc3\xc39Y\xe3XXbbZ\xe30Z\xc3a\xe39a9bc\xe3cXX0cXY\xe30a<X\xc39ccZ\xc3\xe3",
        0,
        55,
    ),
    (
        b"\\0ZbbXa\xe3X0c9Y\xc3b\xe3XY\xe3aZY\xe3XZY9Xb\xc390",
        32,
        32,
    ),
];

static SCRIPT_QUOTED: [Row; 3] = [
    (
        b"Z\xc3Yc0YbX9Zca\xe3a\x059XXZbZ\xc3ZXX\xc39Z0\xc3Y0\x17",
        0,
        14,
    ),
    (
        b"a\x16Y\xe3a\xc3\xe30aZ9XaYYaX9YX\xc3cZYbZa9Y\xe3cY0a\xc3Y0aY9Z\xe3\xe3cacXYX\xe3\x1aX\xe3bYcYY\xc30cZ9",
        15,
        50,
    ),
    (
        b"Zb\xa29Yca\xc3\xc39b0YZ\xc3\xe3a\x0c9\xe3\xe3YcYXaa9Xc00",
        26,
        32,
    ),
];

static STYLE_SINGLE_QUOTED: [Row; 4] = [
    (
        b"9YaaZc09999\xc3\xc3cZcc09\xc3b\x0e0\xc3Y9cYac\xe3ZY",
        7,
        21,
    ),
    (
        b"b\xc3Z090bcc\xc3Z\xe399Z9cYZ00X\xe3Y9cZbZYZXbacbb9ZX9Xa\x07b\x1d\xc309X\xc3cY\xe3ab9\xc3\xc3\xc3X\xe39c",
        0,
        43,
    ),
    (
        b"aZ\xc3Ya9ba00a\xe3cbb\xc3b\xe3\xc3c0ca9\xc3Y9YacbZ\xc3ZXb99\xc3ab\xe3\xe3accb\xe3c0ZaccYYb\xe3b9c\xe30\x1c",
        2,
        63,
    ),
    (
        b"Zb\xe3090bZ9\xe3Y0bb0Z\xc3ZZ\xc3YZ\xe3b\xe39Y9\xc3Z0",
        31,
        31,
    ),
];

static STYLE_DOUBLE_QUOTED: [Row; 3] = [
    (b"0Z0X9990a\xc3\xe3\x049aXb9a90XZcZb\xe3\xc3X\xe3cY", 0, 11),
    (
        b"ccZX\xc3b\xe39YY\xe30Z9c00b0YY0XXb\xc3bXYXc\xc3\x15",
        0,
        32,
    ),
    (
        b"0cX\xe39\xe3\x08caY0\x0fX\xe39Z\x02ZY0X\xe3\xc3ca\xc3b\xe3Ycc\xe3",
        32,
        32,
    ),
];

static STYLE_QUOTED: [Row; 3] = [
    (b"9a<9Y\xe3cZX\xe3\xc3ba09c\xc3b\x0faX9XYa\xc3a09XXY9", 0, 2),
    (
        b"YbYX0c\xc3Y9ba0\xe3\xe3\xe3a\xc39Y\xe30XZ\xe39\xe3ZacYbZXaYccb9XX\xe3ZXY\xc3b099ab\xe3XX\x1fZZ0a900",
        0,
        55,
    ),
    (
        b"ZX\xc30ba\x1f\xc3b\xe3\xc30cbXX9Xccacc\xe309aa\xe3Xa9",
        32,
        32,
    ),
];
