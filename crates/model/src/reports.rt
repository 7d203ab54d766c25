// What C gets of a result: the refusal number, 0 where the call is accepted, and its numbers. And what a
// number that C gives stands for.
ghost use Rattle.std.specs.Prelude.{◌≡◌, []};
ghost use Rattle.model.specs.Answers.{refusal_number, as_counted, as_written, as_edges, as_least};
ghost use Rattle.model.specs.Reading.{shown};
ghost use Rattle.model.specs.Reports.{as_add_report, as_append_report, as_sift_report, as_round_report, as_converge_report, crossing_report, pair_report};
ghost use Rattle.model.specs.Playing.{origin_of};

use crate::refusal::Refusal;
use crate::{
    AddReport, AppendReport, ConvergeReport, ConvergeSummary, Counted, CrossingReport, Edge,
    EdgesCounted, LayoutWritten, LeastFound, Origin, RoundReport, RoundSummary, SiftReport,
    SiftSummary,
};

// The refusal number of any answer.
#[tactic(auto, unfolding(crate::specs::Answers::refusal_number))]
pub fn refusal_number<T>(answer: &Result<T, Refusal>) -> u8
    ensures { result ≡ refusal_number answer.now }
{
    match answer {
        Ok(_) => 0,
        Err(refusal) => refusal.number(),
    }
}

impl From<Result<u64, Refusal>> for Counted {
    ghost from_gives = { λ a r. r ≡ as_counted a };

    #[tactic(auto, unfolding(crate::specs::Answers::as_counted, crate::specs::Answers::told_by))]
    fn from(answer: Result<u64, Refusal>) -> Counted {
        match answer {
            Ok(count) => Counted { refusal: 0, count },
            Err(refusal) => Counted {
                refusal: refusal.number(),
                count: 0,
            },
        }
    }
}

impl From<Result<usize, Refusal>> for LayoutWritten {
    ghost from_gives = { λ a r. r ≡ as_written a };

    #[tactic(auto, unfolding(crate::specs::Answers::as_written, crate::specs::Answers::told_by))]
    fn from(answer: Result<usize, Refusal>) -> LayoutWritten {
        match answer {
            Ok(length) => LayoutWritten { refusal: 0, length },
            Err(refusal) => LayoutWritten {
                refusal: refusal.number(),
                length: 0,
            },
        }
    }
}

impl From<Result<usize, Refusal>> for EdgesCounted {
    ghost from_gives = { λ a r. r ≡ as_edges a };

    #[tactic(auto, unfolding(crate::specs::Answers::as_edges, crate::specs::Answers::told_by))]
    fn from(answer: Result<usize, Refusal>) -> EdgesCounted {
        match answer {
            Ok(edges) => EdgesCounted { refusal: 0, edges },
            Err(refusal) => EdgesCounted {
                refusal: refusal.number(),
                edges: 0,
            },
        }
    }
}

impl From<Result<u64, Refusal>> for LeastFound {
    ghost from_gives = { λ a r. r ≡ as_least a };

    #[tactic(auto, unfolding(crate::specs::Answers::as_least, crate::specs::Answers::told_by))]
    fn from(answer: Result<u64, Refusal>) -> LeastFound {
        match answer {
            Ok(crossings) => LeastFound {
                refusal: 0,
                crossings,
            },
            Err(refusal) => LeastFound {
                refusal: refusal.number(),
                crossings: 0,
            },
        }
    }
}

impl From<Result<usize, Refusal>> for AddReport {
    ghost from_gives = { λ a r. r ≡ as_add_report a };

    #[tactic(auto, unfolding(crate::specs::Reports::as_add_report, crate::specs::Answers::told_by))]
    fn from(answer: Result<usize, Refusal>) -> AddReport {
        match answer {
            Ok(vertex) => AddReport { refusal: 0, vertex },
            Err(refusal) => AddReport {
                refusal: refusal.number(),
                vertex: 0,
            },
        }
    }
}

impl From<Result<u64, Refusal>> for AppendReport {
    ghost from_gives = { λ a r. r ≡ as_append_report a };

    #[tactic(auto, unfolding(crate::specs::Reports::as_append_report, crate::specs::Answers::told_by))]
    fn from(answer: Result<u64, Refusal>) -> AppendReport {
        match answer {
            Ok(tally) => AppendReport { refusal: 0, tally },
            Err(refusal) => AppendReport {
                refusal: refusal.number(),
                tally: 0,
            },
        }
    }
}

impl From<Result<SiftSummary, Refusal>> for SiftReport {
    ghost from_gives = { λ a r. r ≡ as_sift_report a };

    #[tactic(auto, unfolding(crate::specs::Reports::as_sift_report, crate::specs::Answers::told_by))]
    fn from(answer: Result<SiftSummary, Refusal>) -> SiftReport {
        match answer {
            Ok(s) => SiftReport {
                refusal: 0,
                reduction: s.reduction,
                optima: s.optima,
            },
            Err(refusal) => SiftReport {
                refusal: refusal.number(),
                reduction: 0,
                optima: 0,
            },
        }
    }
}

impl From<Result<RoundSummary, Refusal>> for RoundReport {
    ghost from_gives = { λ a r. r ≡ as_round_report a };

    #[tactic(auto, unfolding(crate::specs::Reports::as_round_report, crate::specs::Answers::told_by))]
    fn from(answer: Result<RoundSummary, Refusal>) -> RoundReport {
        match answer {
            Ok(s) => RoundReport {
                refusal: 0,
                reduction: s.reduction,
                moved: s.moved,
                optima: s.optima,
            },
            Err(refusal) => RoundReport {
                refusal: refusal.number(),
                reduction: 0,
                moved: 0,
                optima: 0,
            },
        }
    }
}

impl From<Result<ConvergeSummary, Refusal>> for ConvergeReport {
    ghost from_gives = { λ a r. r ≡ as_converge_report a };

    #[tactic(auto, unfolding(crate::specs::Reports::as_converge_report, crate::specs::Answers::told_by))]
    fn from(answer: Result<ConvergeSummary, Refusal>) -> ConvergeReport {
        match answer {
            Ok(s) => ConvergeReport {
                refusal: 0,
                reduction: s.reduction,
                rounds: s.rounds,
                converged: s.converged,
                optima: s.optima,
            },
            Err(refusal) => ConvergeReport {
                refusal: refusal.number(),
                reduction: 0,
                rounds: 0,
                converged: false,
                optima: 0,
            },
        }
    }
}

impl From<Result<Option<(Edge, Edge)>, Refusal>> for CrossingReport {
    ghost from_gives = { λ a r. r ≡ crossing_report (shown a) };

    #[tactic(auto, unfolding(crate::specs::Reports::crossing_report, crate::specs::Reports::pair_report, crate::specs::Reports::no_edge, crate::specs::Reading::shown))]
    fn from(answer: Result<Option<(Edge, Edge)>, Refusal>) -> CrossingReport {
        match answer {
            Ok(Some((first, second))) => CrossingReport {
                refusal: 0,
                found: true,
                first,
                second,
            },
            Ok(None) => no_pair(0),
            Err(refusal) => no_pair(refusal.number()),
        }
    }
}

#[tactic(auto, unfolding(crate::specs::Reports::pair_report, crate::specs::Reports::no_edge))]
fn no_pair(refusal: u8) -> CrossingReport
    ensures { result ≡ pair_report refusal [] }
{
    let nothing = Edge { low: 0, high: 0 };
    CrossingReport {
        refusal,
        found: false,
        first: nothing,
        second: nothing,
    }
}

// Where a list of calls starts: 1 for a chart, 2 for a graph in graph6, and any other number for the
// empty layout.
impl From<u8> for Origin {
    ghost from_gives = { λ number o. o ≡ origin_of number };

    #[tactic(auto, unfolding(crate::specs::Playing::origin_of))]
    fn from(number: u8) -> Origin {
        match number {
            1 => Origin::Chart,
            2 => Origin::Graph6,
            _ => Origin::Empty,
        }
    }
}
