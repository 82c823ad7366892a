// Windows of time.

// When an event may be done: from a minute on, up to but not including another. Both 0: it has no window.
#[derive(Clone, Copy)]
pub struct Window {
    pub from: u32,
    pub until: u32,
}
