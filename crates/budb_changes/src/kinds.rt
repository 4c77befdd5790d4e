//! The numbers of the kinds of changes, which are their first bytes (this project's own choice).

pub const ADD_SET: u8 = 1;

pub const DEL_SET: u8 = 2;

pub const ADD_ENTRY: u8 = 3;

pub const DEL_ENTRY: u8 = 4;

pub const ADD_LEVEL: u8 = 5;

pub const SET_EXPIRY: u8 = 6;

pub const DEL_LEVEL: u8 = 7;

pub const ADD_HOST: u8 = 8;

pub const DEL_HOST: u8 = 9;

pub const BEGIN: u8 = 10;

pub const TAKE: u8 = 11;

pub const DONE_1: u8 = 12;

pub const FORGET: u8 = 13;

pub const FOUND_1: u8 = 14;

pub const DONE: u8 = 15;

pub const FOUND: u8 = 16;
