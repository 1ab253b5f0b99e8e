// What holds of each run of a link, whatever a program records of the run.

ghost use Rattle.tc_link.specs.AnyPast.{HoldsAfterAnyPast, EachGoesOnAsKept, ReportsDoAsFrames, RunsAsEvents};
ghost use Rattle.tc_link.specs.Bypass.{BypassKeepsOrder};
ghost use Rattle.tc_link.specs.Configured.{AlikeIsAsOne};
ghost use Rattle.tc_link.specs.Confirmed.{EachIsConfirmed, EachResumptionIsConfirmed};
ghost use Rattle.tc_link.specs.CountsOn.{KeepsWhatIsKnown};
ghost use Rattle.tc_link.specs.DeadLink.{EachNoticesSilence};
ghost use Rattle.tc_link.specs.Fates.{KnowsFates};
ghost use Rattle.tc_link.specs.FramesAgain.{EachComesAgain, EachGoesOnAgain, EachGoesOnUnchanged, EachIsAnswered};
ghost use Rattle.tc_link.specs.GroundSession.{EachCountsItsSubmissions, EachCountsSegments};
ghost use Rattle.tc_link.specs.GroundSession.{EachHoldsWhatIsNotAcknowledged};
ghost use Rattle.tc_link.specs.OneLink.{EachGoesOnAsOne, EachHasOneLink};
ghost use Rattle.tc_link.specs.OwnLoop.{EachAnswersAsALink, EachLoopIsALink, EachLoopIsSeen};
ghost use Rattle.tc_link.specs.OwnLoop.{EachLoopSeesTelemetry};
ghost use Rattle.tc_link.specs.Progress.{EachAcknowledges, EachBegins, EachEnds, EachIsDelivered};
ghost use Rattle.tc_link.specs.Progress.{EachMakesProgress};
ghost use Rattle.tc_link.specs.Promises.{HoldsOfAllRuns};
ghost use Rattle.tc_link.specs.Repeated.{RepeatsNothing, RepeatsNothingOfFrames};
ghost use Rattle.tc_link.specs.Resumable.{EachKnowsExactly};
ghost use Rattle.tc_link.specs.Resumed.{EachAnswersResuming, EachFailsOver, EachHasRoom};
ghost use Rattle.tc_link.specs.Resumed.{ResumesInOrder, ResumesSo, ShowsNoneByItself};
ghost use Rattle.tc_link.specs.Seen.{EachIsSeen};
ghost use Rattle.tc_link.specs.SeenBlocks.{EachBlockIsSeen};
ghost use Rattle.tc_link.specs.SentOnce.{EachIsSentOnce};
ghost use Rattle.tc_link.specs.Separate.{EachIsSeparate};
ghost use Rattle.tc_link.specs.Silence.{SilenceIsIdle};
ghost use Rattle.tc_link.specs.Silent.{GivesUpAloud, HoldsWhatIsNotAcknowledged};
ghost use Rattle.tc_link.specs.TypeB.{CountsTypeB};
ghost use Rattle.tc_link.specs.Taken.{EachAcceptsAtMost, HandsOutAsSubmitted, HandsOutWhatIsDelivered, HandsOutWhatIsSubmitted};

/// What `run` promises for each event holds for every configuration in its ranges and every list of events.
///
/// The rules of the two nodes and the link are enough, and no simulation needs to run. The promises therefore
/// hold of a program with a loop of its own, whose calls of the two nodes are events. The law takes no
/// memory.
pub fn law_of_sessions()
    ensures { HoldsOfAllRuns }
{}

/// What `run` promises for each event holds whatever came before the event (`promised`).
///
/// The past is a list of steps: events, takes of telemetry, and calls of `Ground::forget_telemetry`. Any
/// octets from outside the link may also reach either node. At any moment, and with anything in transit, a
/// new node may replace either node. A new spacecraft may have any kept numbers.
///
/// A new node ends the session. Octets from outside also end the session, except those that
/// `after_receiving`, `after_hearing` and `after_report` name. A session that begins later by an idle start
/// has every promise.
///
/// A list of events only is one of these lists of steps, and leads to the same world (`runs`).
///
/// A CLCW may arrive by itself, for example from a front end that passes on only CLCWs. This event does what
/// the CLCW's telemetry frame would do, except for telemetry, and is answered accordingly (`reports`).
///
/// A spacecraft that is restarted with its own numbers continues with the counts of telemetry frames, V(R)
/// and FARM-B (`restarts`).
pub fn law_of_any_past()
    ensures promised { HoldsAfterAnyPast }
    ensures reports { ReportsDoAsFrames }
    ensures runs { RunsAsEvents }
    ensures restarts { EachGoesOnAsKept }
{}

/// What is taken on board is what was delivered.
///
/// Let R be what was ready when a session began, T what `take` has delivered since, and N what is ready now.
/// On each MAP, T followed by N is R followed by what the session has delivered (`delivered`). This holds in
/// each run, whatever came before the session, until the next session begins.
///
/// Meanwhile telemetry may be taken, its extraction may begin again, and octets may come from outside the
/// link that leave the session as it is. On the ground, these octets bring no CLCW that the sender uses. On
/// board, these octets change nothing in the receiver except FARM-B. Examples are noise, frames of another
/// channel, Type-BD frames, and Type-AD frames that are answered Behind or Discarded. The frame that has just
/// arrived may also be repeated.
///
/// In a session that had an idle start, on each MAP, T is therefore a prefix of R followed by what is
/// submitted (`submitted`).
///
/// In a session that had an idle start, all MAPs have one order (`order`). Over all MAPs, each packet with
/// its MAP, T followed by N is R followed by a prefix of what is submitted. This prefix is in the order of
/// submission. In S1 with nothing outstanding, the prefix is everything submitted.
///
/// In S6, until a session begins, the spacecraft accepts at most as many more segments as Type-AD frames are
/// in transit on the uplink (`at_most`). This limit holds during the steps named above. With no Type-AD frame
/// in transit, the spacecraft accepts no more segments.
pub fn law_of_taking()
    ensures delivered { HandsOutWhatIsDelivered }
    ensures submitted { HandsOutWhatIsSubmitted }
    ensures order { HandsOutAsSubmitted }
    ensures at_most { EachAcceptsAtMost }
{}

/// A settled session is the history of only one plain link.
///
/// The records of the session and what is in transit determine this plain link, and its base modulo 256
/// (`one`).
///
/// While a settled session that had an idle start continues, its one plain link continues too (`goes_on`).
/// Each event advances the plain link by at most one step. Any steps that `law_of_taking` names advance the
/// plain link by a run.
pub fn law_of_plain_links()
    ensures one { EachHasOneLink }
    ensures goes_on { EachGoesOnAsOne }
{}

/// An alert keeps what is known: V(S) and NN(R) still count the segments that were sent and acknowledged.
///
/// The law holds from the beginning of a session that had an idle start, whatever came before the session,
/// until a directive sets V(S) (`link`). Meanwhile, the steps that `law_of_taking` names may happen. Let B be
/// V(S) at the beginning of the session. V(S) is B plus the number of segments sent since, modulo 256. NN(R)
/// is B plus the number of those segments that are acknowledged, modulo 256. V(S) therefore equals NN(R), in
/// S6 too, only if all that was sent is acknowledged.
///
/// The same holds of each ground by itself, in each session, until a directive sets V(S) (`each`). The
/// session may have begun in any way, and any CLCWs may reach the ground, from any spacecraft. What is
/// acknowledged is then as many segments as CLCWs have moved NN(R).
pub fn law_of_numbers()
    ensures link { KeepsWhatIsKnown }
    ensures each { EachCountsSegments }
{}

/// There is no deadlock, in any session. Once nothing more is lost, the ground returns an alert, or nothing
/// remains outstanding.
///
/// The law is about *exchanges*, in which nothing is lost (`exchange`). The exchanges begin in any world that
/// a run leads to. The run is as in `law_of_any_past`: any octets may have come from outside the link, and
/// new nodes may have replaced others.
///
/// While the sender is in S1 to S3, exchanges end with an alert, or with the sender in S1 and nothing
/// outstanding (`progress`). With nothing outstanding, in a session that had an idle start, everything
/// submitted is delivered. One exchange more than the window needs for what the ground holds is enough. Each
/// exchange after the first acknowledges as many units as the window has room for, or all, unless an alert is
/// raised (`acknowledges`).
///
/// Suppose that the session had an idle start by CLCW check, Unlock or Set V(R). Suppose also that the sender
/// is in S1 to S3, with its transmission count below its limit. Then no alert is raised, and everything
/// submitted is delivered (`delivered`).
///
/// Before the confirmation, exchanges end with an alert, or with the sender in S1 to S3 (`begins`). From any
/// state except S6, exchanges therefore end with an alert, or with the sender in S1 and nothing outstanding
/// (`ends`).
///
/// One exchange confirms an initiation by an idle start, and no alert is raised in this exchange
/// (`confirmed`). This holds of Unlock if V(R) = V(S), and of Set V(R) if the receiver is not in Lockout.
/// CLCW check requires that V(R) = V(S) and that neither the lockout nor the retransmit flag is set. One
/// exchange likewise confirms a resumption by the value of a CLCW that is made now (`resumed`).
///
/// In a session that had an idle start by CLCW check, Unlock or Set V(R), each segment is sent once (`once`).
/// The conditions are that no frame is lost or damaged on the uplink, no tick passes and the receiver never
/// waits.
pub fn law_of_progress()
    ensures progress { EachMakesProgress }
    ensures acknowledges { EachAcknowledges }
    ensures delivered { EachIsDelivered }
    ensures begins { EachBegins }
    ensures ends { EachEnds }
    ensures confirmed { EachIsConfirmed }
    ensures resumed { EachResumptionIsConfirmed }
    ensures once { EachIsSentOnce }
{}

/// Silence makes an idle start, after any past.
///
/// When the silence begins, nothing is in transit on the uplink. From then on the ground sends no frame, and
/// no octets from outside reach the spacecraft. The spacecraft is not replaced, and no packet is taken from
/// it while its wait flag is set. Anything else may happen, for example CLCWs, ticks, submissions,
/// directives, telemetry and a new ground node.
///
/// The link is idle when as many frames have arrived, or been lost or damaged, as were in transit on the
/// downlink at first. If an initiation then begins a session, the session has an idle start; without CLCW
/// check, this requires V(R) = V(S).
pub fn law_of_silence()
    ensures { SilenceIsIdle }
{}

/// A bypass packet is delivered at most once, and in order (`order`).
///
/// The law holds after any past and since any moment. The premise is that since that moment no octets from
/// outside the link reach the spacecraft. No session is needed, and any frame may be lost.
///
/// The packets *held* are those that wait on board, those in Type-BD frames in transit on the uplink, and
/// those that wait on the ground. The three groups come in this order. A new link holds none. Consider the
/// packets that `take_bypass` has delivered since some moment, followed by the packets held now. In order,
/// each with its MAP, these are some of the packets held at that moment, followed by some that the ground has
/// accepted since.
///
/// FARM-B increases by the number of Type-B frames that arrive, modulo 4 (`counted`). This holds whatever
/// else arrives, until a new spacecraft replaces this one.
///
/// Bypass packets and telemetry leave commanding as it is, after any past (`apart`). When a bypass packet is
/// submitted, sent, received or taken, the nodes change only in the bypass queue, the bypass packets on board
/// and FARM-B. When telemetry is queued or sent, they change only in what builds telemetry frames. So V(S),
/// NN(R), V(R), the flags, the segments and the records of the session stay the same.
pub fn law_of_bypass()
    ensures order { BypassKeepsOrder }
    ensures counted { CountsTypeB }
    ensures apart { EachIsSeparate }
{}

/// The last CLCW, when repeated, changes nothing.
///
/// A ground is given a CLCW by `clcw` after any calls. Other calls follow, and then `clcw` is given the same
/// four octets again (`words`). The second time, the ground is left as it was, raises no alert, and answers
/// the same about the CLCW.
///
/// The premise is that no call in between brings a CLCW that is used, begins a session, or sets the
/// transmission limit to 1. Noise, and frames and CLCWs of another channel, may arrive.
///
/// The same holds if the octets first arrived in a telemetry frame of the ground's channel (`frames`).
///
/// A front end that passes on its last CLCW again, until there is another, therefore does no harm to a
/// session.
pub fn law_of_repetition()
    ensures words { RepeatsNothing }
    ensures frames { RepeatsNothingOfFrames }
{}

/// A frame that is repeated at once changes only FARM-B and the bypass packets. A station may, for example,
/// send each CLTU twice in a row.
///
/// After any past, octets reach the spacecraft, and reach it again before anything else happens there
/// (`again`). A Type-AD frame then changes nothing. FARM-B counts a Type-B frame again. The packet of a
/// Type-BD frame is kept again: the packet is delivered twice, or the oldest packet is dropped for it.
///
/// A session therefore continues, however often the frame that has just arrived is repeated (`goes_on`). A
/// session also continues if octets are repeated later, while the receiver has not changed since they arrived
/// (`unchanged`). Meanwhile CLCWs may be made, and packets may be taken if the receiver does not wait. What
/// holds after any past, and during the steps that `law_of_taking` names, holds with these repetitions too.
///
/// A session also continues with octets that do not form a frame, and with a frame for another receiver
/// (`answered`). The same is true of a Type-BD frame, and of a Type-AD frame that is answered Behind or
/// Discarded.
pub fn law_of_frames_again()
    ensures again { EachComesAgain }
    ensures goes_on { EachGoesOnAgain }
    ensures unchanged { EachGoesOnUnchanged }
    ensures answered { EachIsAnswered }
{}

/// Two nodes with configurations that are alike behave as two nodes with one configuration.
///
/// Alike means that the fields that both nodes read have the same values in both configurations (`AreAlike`).
/// Each node then answers each call as it would with one configuration made of both (`made_of`). Its state
/// afterwards is the same too, except that the node has its own configuration.
pub fn law_of_configurations()
    ensures { AlikeIsAsOne }
{}

/// What the ground states about its submissions is true.
///
/// The law holds from the beginning of a session that had an idle start, whatever came before the session,
/// until a directive sets V(S) (`link`). The law holds in each state and after each alert. Meanwhile, the
/// steps that `law_of_taking` names may happen.
///
/// The ground's numbers of submissions, of those sent whole and of those acknowledged whole are those of the
/// records, modulo 2^64. By the value of a CLCW made now, the ground's number of submissions that are on
/// board whole is also that of the records. This fourth number is promised while no alert has shown that a
/// condition is broken.
///
/// The first three numbers are those of the calls, in each session of each ground, until a directive sets
/// V(S) (`each`). The session may have begun in any way, and anything may reach the ground. The calls show
/// which submissions were accepted, which Type-AD frames were sent for the first time, and how far CLCWs
/// moved NN(R).
pub fn law_of_submissions()
    ensures link { KnowsFates }
    ensures each { EachCountsItsSubmissions }
{}

/// If a program resumes after each alert, what is delivered on each MAP is a prefix of what the program
/// wants, each packet once.
///
/// The program works through a list of what it wants delivered, session after session (`in_order`). The first
/// session has an idle start. In each session the program submits what it wants next, in order. Each
/// submission is one packet, or packets that fit into one segment together. After each alert the program
/// resumes by the value of a CLCW made now. At that moment nothing is in transit on the uplink, and on the
/// downlink only CLCWs equal to one made now. The program then continues after as many more submissions as
/// `resume` returns. The prefix is what all its sessions together deliver. If nothing of a session was sent,
/// the program may instead begin another by an idle start, and continue from the same submission. Only in
/// this case may a directive set V(S) before the next session begins. Meanwhile, the steps that
/// `law_of_taking` names may happen.
///
/// In terms of what a program sees, with blocking or without, what `take` delivers is a prefix of the packets
/// of these submissions (`blocks`). This prefix is in one order over all MAPs. The conditions are those of
/// `law_of_seen`.
///
/// An accepted `resume` does what two directives do: one sets V(S) to the value, and the next begins a
/// session by Unlock (`ground`). The event Resume does the same to the link and its records.
///
/// In S6, in a session that had an idle start, confirmed or not, `resume` accepts the value of a CLCW made
/// now (`answers`). `resume` then returns how many submissions are on board whole. This holds until a
/// directive sets V(S), or an alert shows that a condition is broken.
///
/// The ground may be lost, in any state, and another opened from its last record (`Ground::kept`,
/// `Ground::open_at`). The program may then resume on the new ground instead (`in_order`). In a session that
/// had an idle start, confirmed or not, `resume` of the new ground returns how many submissions are on board
/// whole (`fails_over`). This holds until a directive sets V(S), or an alert shows that a condition is
/// broken. After any past, the sender's room is half the configured width (`room`). The configuration
/// therefore accepts what is kept of the ground.
///
/// While the link keeps its conditions, no alert shows that a condition is broken (`quiet`). This holds in a
/// session that had an idle start by Unlock or Set V(R). In a session that had an idle start by CLCW check,
/// the same holds once the session is confirmed.
///
/// The conditions under which `resume` is refused are exact, whatever calls a ground has had (`exactly`).
/// `known_on_board` returns a number exactly when two conditions hold. First, a session is known by the
/// answers to the calls. Second, the value lies from NN(R) to V(S), or these two are equal. `resume` is
/// accepted exactly when `known_on_board` returns a number in S6. Otherwise `resume` refuses with 10
/// NotKnown, and changes nothing.
///
/// A session is known once an initiation or a resumption was accepted, until V(S) is set or an alert shows a
/// broken condition. In a new ground no session is known. In a ground that is opened from a record, a session
/// is known at first exactly if the record has `known`.
pub fn law_of_resuming()
    ensures in_order { ResumesInOrder }
    ensures blocks { EachBlockIsSeen }
    ensures ground { ResumesSo }
    ensures answers { EachAnswersResuming }
    ensures fails_over { EachFailsOver }
    ensures room { EachHasRoom }
    ensures quiet { ShowsNoneByItself }
    ensures exactly { EachKnowsExactly }
{}

/// Loss is never silent: until an alert leads to S6, each submitted segment is acknowledged or outstanding.
///
/// After any past, consider a session that had an idle start, in any state except S6. The ground holds
/// outstanding exactly the unacknowledged segments of what was submitted, in the order of submission
/// (`held`).
///
/// The same holds of each ground by itself, in each session (`each`). The session may have begun in any way,
/// and any CLCWs may reach the ground, from any spacecraft. What is acknowledged is then as many segments as
/// CLCWs have moved NN(R).
///
/// A call that leads from another state to S6 returns an alert (`aloud`). This holds of each ground, whatever
/// calls it has had, and of each link.
///
/// A dead uplink is noticed, in any session (`noticed`). Suppose that the ground has sent all that its sender
/// releases, and then waits for an answer to its initiation or to a unit. If every frame is lost and nothing
/// is heard, an alert is raised by the time the timer has run out L - c + 1 times. Here L is the transmission
/// limit, and c the transmission count once all is sent.
pub fn law_of_loss()
    ensures held { HoldsWhatIsNotAcknowledged }
    ensures each { EachHoldsWhatIsNotAcknowledged }
    ensures aloud { GivesUpAloud }
    ensures noticed { EachNoticesSilence }
{}

/// `take` delivers packets in the order in which sessions submitted them. The law mentions only what a
/// program sees: the events of a run, and the answers to them.
///
/// The condition is that each session begins by CLCW check, Unlock, Set V(R) or `resume`, after a counted
/// silence. In a counted silence no frame is in transit on the uplink. Every frame in transit on the downlink
/// was sent after the last frame had left the uplink, and after the last packet was taken.
///
/// What `take` delivers over all MAPs is a prefix of D1 ++ .. ++ Dk (`IsSeenInOrder`). Each Di is a prefix of
/// the packets that session i submitted. With blocking, a submission may have several packets.
///
/// In a run without blocking, what `take` delivers is a prefix of what is wanted, over all MAPs, on two
/// conditions (`IsSeenOnce`). Each session except the first is resumed, by the value of a CLCW that was made
/// after the last frame had left the uplink. Each session submits what is wanted next.
pub fn law_of_seen()
    ensures { EachIsSeen }
{}

/// All promises hold of a loop of your own.
///
/// A program calls the ground on one machine and the spacecraft on another, and octets go between them. The
/// program has no simulated link, and keeps no records of a session.
///
/// The loop begins with two new nodes and with nothing in transit. Each direction keeps its order. The first
/// string of octets in transit arrives, is lost, or is replaced by other octets that its receiver's decoder
/// refuses. Octets from outside may also reach a node, and a new node may replace one.
///
/// Wherever these steps lead, the nodes and what is in transit are those of the link to which the same steps
/// lead (`nodes`). What is promised of that link after any past therefore holds of the loop.
///
/// The calls of the nodes answer each event as that link does (`answers`). `law_of_seen` therefore holds of
/// the answers of the program's own calls (`seen`). What `law_of_telemetry` states in terms of what a program
/// sees also holds of these answers (`telemetry`).
pub fn law_of_own_loops()
    ensures nodes { EachLoopIsALink }
    ensures answers { EachAnswersAsALink }
    ensures seen { EachLoopIsSeen }
    ensures telemetry { EachLoopSeesTelemetry }
{}
