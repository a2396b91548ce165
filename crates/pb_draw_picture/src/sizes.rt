//! The sizes of a picture, in pixels: all of them stand here.

/// How wide a silent pick is.
pub const SILENT: u64 = 6;

/// A longer silent stretch is as wide as this many silent picks.
pub const MAX_SILENT: u64 = 15;

/// How wide a character is.
pub const CHARACTER: u64 = 7;

/// How wide a character of a small text is.
pub const SMALL_CHARACTER: u64 = 6;

/// The room beside the text of an event: each event is at least so wide.
pub const SIDE: u64 = 16;

/// The most characters of an event for which there is room.
pub const MAX_CHARACTERS: u64 = 100;

/// How wide the time before any pick is.
pub const START: u64 = 48;

/// The most characters of a name for which there is room, and the room beside them.
pub const MAX_NAME: u64 = 32;

pub const NAME_SIDE: u64 = 100;

/// Where names and notes begin.
pub const MARGIN: u64 = 8;

/// How far apart the places are at which the name of an arm is written once more, and how far above its line.
pub const AGAIN: u64 = 800;

pub const AGAIN_UP: u64 = 25;

/// Where the first row begins, below the numbers of the picks.
pub const TOP: u64 = 40;

/// The heights of a row: above the line of its arm, that line, the gap below it, each hold, and at its end.
pub const ABOVE: u64 = 26;

pub const TRACK: u64 = 8;

pub const BETWEEN: u64 = 2;

pub const HOLD: u64 = 18;

pub const BELOW: u64 = 10;

/// How high the bar of a hold is.
pub const BAR: u64 = 15;

/// Where the bundle of a hold is written, from the corner of its bar.
pub const BUNDLE_RIGHT: u64 = 7;

pub const BUNDLE_DOWN: u64 = 11;

/// Where the middle of an event is, below the top of the line of its arm.
pub const MIDDLE: u64 = 4;

/// Where the text of an event is, from its middle.
pub const LABEL_LEFT: u64 = 4;

pub const LABEL_UP: u64 = 9;

/// How far above the line of an arm that is kept back it is written who could not finish.
pub const WAIT_UP: u64 = 14;

/// Where the numbers of picks are.
pub const NUMBER_Y: u64 = 28;

/// The height of the curve of a resource, and of its row.
pub const CURVE: u64 = 48;

pub const CURVE_ROW: u64 = 76;

/// How high the step curve itself is, and how far above the area below it it begins.
pub const LEVEL: u64 = 2;

pub const LEVEL_UP: u64 = 1;

/// Where an amount is written, from the upper left corner of its step.
pub const AMOUNT_RIGHT: u64 = 2;

pub const AMOUNT_UP: u64 = 4;

/// Where the ground of a shortened stretch begins, and where its number is written: beside the numbers of picks.
pub const GAP_TOP: u64 = 32;

pub const GAP_TEXT: u64 = 28;

/// Where it is said that a run ends in a deadlock, above the numbers of picks, and the most characters of that for which
/// there is room.
pub const HEAD_Y: u64 = 14;

pub const MAX_HEAD: u64 = 1000;

/// Where what is said below a picture is, from where its rows end.
pub const NOTE_DOWN: u64 = 24;

pub const LINE_NOTE_DOWN: u64 = 38;

pub const MARK_NOTE_DOWN: u64 = 52;

pub const LEFT_OUT_DOWN: u64 = 66;

/// The least width of a picture, with the room to the right of its time, and the room below its rows.
pub const MIN_WIDTH: u64 = 680;

pub const RIGHT: u64 = 20;

pub const BOTTOM: u64 = 80;

/// No picture is wider or higher.
pub const WIDEST: u64 = 35_184_372_088_832;

pub const HIGHEST: u64 = 9_223_372_036_854_775_808;

/// No row is lower.
pub const LOWEST: u64 = 4_611_686_018_427_387_904;

/// No row is higher, and no picture has more rows.
pub const ROW_MOST: u64 = 100_000_000_000;

pub const MAX_ROWS: u64 = 65_536;
