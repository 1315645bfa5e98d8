// The sizes of trials, tables, files, reports and sheets, each named once: specs/Limits.antt says what they are.
#![tactic(auto)]

pub const OFFERS_MOST: usize = 16;

pub const PAIRS_MOST: usize = 9;

pub const SHOPS_MOST: usize = 10;

pub const UNITS_MOST: usize = SHOPS_MOST;

pub const TOLERANCE_MOST: usize = 4;

pub const DIGITS_MOST: usize = 7;

pub const DIFFERENCE_MOST: i32 = 134217727;

pub const DIFFERENCE_LEAST: i32 = -DIFFERENCE_MOST;

pub const LEVEL_MOST: usize = 16383;

pub const FIGURES_MOST: usize = OFFERS_MOST * UNITS_MOST;

pub const TRIAL_ROWS_MOST: usize = 1 << PAIRS_MOST;

pub const TRIAL_TABLE_MOST: usize = TRIAL_ROWS_MOST * OFFERS_MOST;

pub const TABLE_ROWS_MOST: usize = 4096;

pub const COLUMNS_MOST: usize = 32;

pub const STEPS_MOST: usize = 32;

pub const LONGEST_FILE: usize = 4 * (2 + OFFERS_MOST + FIGURES_MOST + 1);

pub const INPUT_ROOM: usize = LONGEST_FILE + 1;

pub const HEAD_MOST: usize = 128;

pub const STEP_LINE_MOST: usize = DIGITS_MOST + 70;

pub const OFFER_LINE_MOST: usize = DIGITS_MOST + 52;

pub const END_MOST: usize = 25;

pub const STEPS_END: usize = HEAD_MOST + STEP_LINE_MOST * STEPS_MOST;

pub const LONGEST_REPORT: usize = STEPS_END + OFFER_LINE_MOST * OFFERS_MOST + END_MOST;

pub const SHEET_LINE_MOST: usize = DIGITS_MOST + 22;

pub const LONGEST_SHEET: usize = SHEET_LINE_MOST * OFFERS_MOST + END_MOST;
