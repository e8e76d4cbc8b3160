//! Texts, computed.

ghost use Rattle.std.specs.Prelude.{◌≡◌, ◌++◌, None, Some, codes};
ghost use Rattle.acq_reports.specs.Worked.{worked_tables};
ghost use Rattle.acq_status.specs.Figures.{figures_at};
ghost use Rattle.acq_status.specs.Replies.{duration_samples, no_replies, reply_lines};
ghost use Rattle.acq_status.specs.Texts.{metric, pending_sample, reading, reply_metrics};
ghost use Rattle.acq_status.specs.Texts.{status_of};
ghost use Rattle.acq_status.specs.Worked.{waiting_tables, worked_durations, worked_replies};
ghost use Rattle.acq_status.specs.Worked.{worked_serving};
ghost use Rattle.acq_status.specs.declared.figure.Figure.TheVariants.{BusinessDay, Events};

/// A status, computed: of a book alone, and of one that is served.
pub fn worked_status()
    ensures quiet { status_of (figures_at worked_tables) None
        ≡ codes "version 0.2.0\nday 2024-05-02\nlimit 999999\nmerchants 2\nterminals 0\nranges 0\n"
        ++ codes "requests_today 0\npending.2024-05-02 0\n" }
    ensures served { status_of (figures_at waiting_tables) (Some worked_serving)
        ≡ codes "version 0.2.0\nday 2024-05-02\nlimit 999999\nmerchants 2\nterminals 0\nranges 0\n"
        ++ codes "requests_today 0\nplaces 64\nopen_places 61\nconnections_total 7\n"
        ++ codes "events_total 120\nlines_total 9\nrefused_frames_total 1\n"
        ++ codes "unanswered_unserved_total 3\nunanswered_waiting_total 2\n"
        ++ codes "unanswered_late_total 0\nlog_lines_lost_total 5\ngateways 1\n"
        ++ codes "rows_missing_total 0\nlast_event_age_seconds 2\n"
        ++ codes "oldest_pending_age_seconds 60\nbook_bytes 98304\nwal_bytes 0\n"
        ++ codes "replies_total.00 112\nreplies_total.14 4\nreplies_total.91 1\n"
        ++ codes "replies_total.other 3\npending.2024-05-01 1\npending.2024-05-02 0\n" }
{}

/// Metrics, computed.
pub fn worked_metrics()
    ensures gauge { metric (reading BusinessDay 1714608000)
        ≡ codes "# HELP acqd_business_day_timestamp_seconds "
        ++ codes "When the date of the business day begins.\n"
        ++ codes "# TYPE acqd_business_day_timestamp_seconds gauge\n"
        ++ codes "acqd_business_day_timestamp_seconds 1714608000\n" }
    ensures counter { metric (reading Events 120)
        ≡ codes "# HELP acqd_events_total Messages of terminals that were answered.\n"
        ++ codes "# TYPE acqd_events_total counter\nacqd_events_total 120\n" }
    ensures day { pending_sample (record { day = 8887; requests = 1 })
        ≡ codes "acqd_pending{day=\"2024-05-01\"} 1\n" }
{}

/// Metrics of the replies that a host that serves gave, computed; of one that gave none yet, too.
pub fn worked_reply_metrics()
    ensures codes { reply_lines (codes "acqd_replies_total{code=\"") (codes "\"} ") worked_replies
        ≡ codes "acqd_replies_total{code=\"00\"} 112\nacqd_replies_total{code=\"14\"} 4\n"
        ++ codes "acqd_replies_total{code=\"91\"} 1\nacqd_replies_total{code=\"other\"} 3\n" }
    ensures durations { duration_samples worked_durations
        ≡ codes "acqd_reply_seconds_bucket{le=\"0.001\"} 80\n"
        ++ codes "acqd_reply_seconds_bucket{le=\"0.002\"} 101\n"
        ++ codes "acqd_reply_seconds_bucket{le=\"0.005\"} 110\n"
        ++ codes "acqd_reply_seconds_bucket{le=\"0.01\"} 115\n"
        ++ codes "acqd_reply_seconds_bucket{le=\"0.02\"} 117\n"
        ++ codes "acqd_reply_seconds_bucket{le=\"0.05\"} 118\n"
        ++ codes "acqd_reply_seconds_bucket{le=\"0.1\"} 118\n"
        ++ codes "acqd_reply_seconds_bucket{le=\"0.5\"} 118\n"
        ++ codes "acqd_reply_seconds_bucket{le=\"1\"} 118\n"
        ++ codes "acqd_reply_seconds_bucket{le=\"5\"} 119\n"
        ++ codes "acqd_reply_seconds_bucket{le=\"+Inf\"} 120\n"
        ++ codes "acqd_reply_seconds_sum 6.050042\nacqd_reply_seconds_count 120\n" }
    ensures quiet { reply_metrics (Some (record worked_serving { replies = no_replies }))
        ≡ codes "# HELP acqd_replies_total Replies to terminals, by response code.\n"
        ++ codes "# TYPE acqd_replies_total counter\n"
        ++ codes "# HELP acqd_reply_seconds Time from a message's last byte to its reply's first.\n"
        ++ codes "# TYPE acqd_reply_seconds histogram\n" ++ duration_samples worked_durations }
{}
