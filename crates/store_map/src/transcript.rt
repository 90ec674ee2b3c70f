//! A transcript as values: a list of lines for each kind.
use crate::line::{GLine, HLine, LLine, OLine, RLine, TLine, XLine};
use crate::list_of::ListOf;

/// The lines of a run, kind by kind in the order in which they are written.
pub struct Transcript {
    pub history: ListOf<HLine>,
    pub refused: ListOf<XLine>,
    pub repairs: ListOf<RLine>,
    pub unanswered: ListOf<OLine>,
    pub objects: ListOf<LLine>,
    pub takes: ListOf<GLine>,
    pub servers: ListOf<TLine>,
}

// By hand, since a derived one is proved again in each crate that drops the type.
impl Drop for Transcript {
    fn drop(self) {
        let Transcript {
            history: _history,
            refused: _refused,
            repairs: _repairs,
            unanswered: _unanswered,
            objects: _objects,
            takes: _takes,
            servers: _servers,
        } = self;
    }
}
