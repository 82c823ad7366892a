// Where each part of a state stands in its 384 bytes: the offsets of the C struct `sinewhopa_state`, fixed for ever. The
// definitions have the same numbers (specs/Layout.antt).

pub(crate) const VERSION_AT: usize = 0;

pub(crate) const EVENT_COUNT_AT: usize = 1;

pub(crate) const RULE_COUNT_AT: usize = 2;

pub(crate) const LINE_COUNT_AT: usize = 3;

pub(crate) const STEP_AT: usize = 4;

pub(crate) const ATTRIBUTES_AT: usize = 20;

pub(crate) const KIND_AT: usize = 36;

pub(crate) const A_AT: usize = 52;

pub(crate) const B_AT: usize = 68;

pub(crate) const C_AT: usize = 84;

pub(crate) const FATE_AT: usize = 100;

pub(crate) const MARK_AT: usize = 116;

pub(crate) const SHUT_AT: usize = 132;

pub(crate) const LINE_EVENT_AT: usize = 140;

pub(crate) const LINE_FATE_AT: usize = 156;

pub(crate) const MINUTE_AT: usize = 172;

pub(crate) const FROM_AT: usize = 176;

pub(crate) const UNTIL_AT: usize = 240;

pub(crate) const SPARE_AT: usize = 304;
