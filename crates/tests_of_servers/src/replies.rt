//! What a session writes.
pub(crate) const GREETING: &str = "Queue Sites Call Manager/1.0.0\r\n";

// The reply to a login.
pub(crate) const ACCEPTED: &str = "Response: Success\r\nMessage: Authentication accepted\r\n\r\n";

// The reply to an add.
pub(crate) const ADDED: &str = "Response: Success\r\nMessage: Added interface to queue\r\n\r\n";

// The reply to a logoff.
pub(crate) const GOODBYE: &str = "Response: Goodbye\r\nMessage: Thanks for all the fish.\r\n\r\n";

// The report of the queue `sales` with the member SIP/1.
pub(crate) const REPORT: &str =
    "Response: Success\r\nEventList: start\r\nMessage: Queue status will follow\r\n\r\n\
Event: QueueParams\r\nQueue: sales\r\nCompleted: 0\r\nAbandoned: 0\r\n\r\n\
Event: QueueMember\r\nQueue: sales\r\nName: SIP/1\r\nLocation: SIP/1\r\nStateInterface: SIP/1\r\nMembership: dynamic\r\n\
Penalty: 0\r\nPaused: 0\r\nPausedReason: \r\nRingInUse: 1\r\n\r\n\
Event: QueueStatusComplete\r\nEventList: Complete\r\nListItems: 2\r\n\r\n";

// The same report where the member has penalty 2.
pub(crate) const REPORT_OF_PENALTY_2: &str =
    "Response: Success\r\nEventList: start\r\nMessage: Queue status will follow\r\n\r\n\
Event: QueueParams\r\nQueue: sales\r\nCompleted: 0\r\nAbandoned: 0\r\n\r\n\
Event: QueueMember\r\nQueue: sales\r\nName: SIP/1\r\nLocation: SIP/1\r\nStateInterface: SIP/1\r\nMembership: dynamic\r\n\
Penalty: 2\r\nPaused: 0\r\nPausedReason: \r\nRingInUse: 1\r\n\r\n\
Event: QueueStatusComplete\r\nEventList: Complete\r\nListItems: 2\r\n\r\n";

// The report of the queue `sales` without members.
pub(crate) const EMPTY_REPORT: &str =
    "Response: Success\r\nEventList: start\r\nMessage: Queue status will follow\r\n\r\n\
Event: QueueParams\r\nQueue: sales\r\nCompleted: 0\r\nAbandoned: 0\r\n\r\n\
Event: QueueStatusComplete\r\nEventList: Complete\r\nListItems: 1\r\n\r\n";

// The same report where three calls were completed and one was abandoned.
pub(crate) const REPORT_OF_CALLS: &str =
    "Response: Success\r\nEventList: start\r\nMessage: Queue status will follow\r\n\r\n\
Event: QueueParams\r\nQueue: sales\r\nCompleted: 3\r\nAbandoned: 1\r\n\r\n\
Event: QueueStatusComplete\r\nEventList: Complete\r\nListItems: 1\r\n\r\n";
