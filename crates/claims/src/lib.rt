// The theorems that the documents cite, each as the `ensures` of an empty function, so that a
// reader sees it and the gate fails if it goes. A statement needs only the definitions that it names.
//
// The three demands come first, then what follows from each. Of demand 1 "every call ends with an answer" and of
// demand 2 the first sentence are the contracts themselves: no public function has a `requires`, each returns, and
// its one `ensures` is an equation with a definition in specs/, which quotes the scope paper. `layout_body` is what
// `layout::read_layout` answers, `layout4` `layout4::read_layout4`, `device_body` `device::read_device`, `bound_to`
// `binding::bind`, `return_body` both readers of layout returns, each with its half, `return_written` both writers, of
// which that of reports alone sends no statistics, `event_result` `events::apply`, `routed` `route::locate`,
// `event_on_record` the exported events, `routed_on` the exported lookups.
//
// `accepted v` is an answer with its value, `refused n` a refusal with the scope paper's number, and `n ≡ 0 → ⊥` says
// that n is not 0.
#![tactic(auto)]

ghost use Rattle.std.specs.Prelude.{ℕ, ◌+◌, ◌-◌, ◌*◌, ◌/◌, ◌%◌, ◌^◌, ◌<◌, ◌≤◌, ◌≡◌, ◌⊎◌, Bool, true, false, not, ◌&&◌, List, [], ◌∷◌, ◌++◌, map, get_or, length, replicate, take};
ghost use Rattle.base.specs.Limits.{error_size, longest_statistic, most_servers, report_head_size, shortest_statistic};
ghost use Rattle.base.specs.Answer.{accepted, refused, given};
ghost use Rattle.base.specs.Bits.{bit};
ghost use Rattle.base.specs.declared.iomode.Iomode.TheVariants.{Read, ReadWrite};
ghost use Rattle.octets.specs.Numbers.{AllBytes, be_bytes, be_value};
ghost use Rattle.xdr.specs.Parsed.{ok};
ghost use Rattle.server.specs.Servers.{server_at};
ghost use Rattle.server.specs.declared.item.Server.{Server};
ghost use Rattle.layout.specs.Layouts.{Layout, flags_at_end, layout_body, start_at, starts_of};
ghost use Rattle.layout4.specs.Layout4s.{WholeLayout, layout4};
ghost use Rattle.device.specs.Bodies.{device_body};
ghost use Rattle.binding.specs.Bindings.{bound_to};
ghost use Rattle.statistics.specs.StatisticBytes.{StatisticFits, cleared, statistic_bytes, statistics_bytes};
ghost use Rattle.statistics.specs.declared.Statistic.{Statistic};
ghost use Rattle.report.specs.Reports.{LayoutReturn, Report, report_body, return_body, statistics_body};
ghost use Rattle.report.specs.declared.Outgoing.{Outgoing};
ghost use Rattle.report.specs.declared.ReportHead.{ReportHead};
ghost use Rattle.report.specs.ReportOffsets.{HeadFits, EntryFits, entries_in, outgoing_of, reports_from, sent};
ghost use Rattle.report.specs.Writing.{ErrorEntry, counts, output_after, reports_written, return_written};
ghost use Rattle.base.specs.Lists.{Each};
ghost use Rattle.base.specs.Ranges.{last_byte, request_last, to_the_end};
ghost use Rattle.segments.specs.declared.Table.{Table};
ghost use Rattle.segments.specs.Segments.{Mode, READ, RW, empty_table, list_in, list_of, right_at};
ghost use Rattle.segments.specs.declared.Right.TheVariants.{Granted};
ghost use Rattle.route.specs.declared.piece.Piece.{Piece};
ghost use Rattle.route.specs.Mirrors.{efficiency_of};
ghost use Rattle.route.specs.Rights.{served_by_rights, served_of};
ghost use Rattle.route.specs.Routes.{iomode_for, layout_in, routed, stripe_in};
ghost use Rattle.store.specs.Store.{Body, body_in, slot_at, zero_store};
ghost use Rattle.model.specs.Invariants.{left_by};
ghost use Rattle.soundness.specs.AnyTable.{EndsBy, OfModel, Typed, model_of};
ghost use Rattle.model.specs.Claim.{Calls, Demand3, Fits, accepted_of, answered, kept_left, right_given, right_in};
ghost use Rattle.model.specs.Claim.{store_left};
ghost use Rattle.model.specs.Cases as cases;
ghost use Rattle.model.specs.Cases.{body_of, grant_bytes};
ghost use Rattle.model.specs.StandIns.{changes_nothing, first_only, refuses_all};
ghost use Rattle.base.specs.Answer.{is_accepted};
ghost use Rattle.soundness.specs.Sound.{sound};
ghost use Rattle.model.specs.Model.{Event, Grant, Command, Recall, Return, Revoke, rights_and_slots, covers, granted};
ghost use Rattle.model.specs.Model.{none, recalls, run, start, table_of};
ghost use Rattle.events.specs.Events.{event_result};
ghost use Rattle.examples.specs.Examples.{ExampleHolds, examples};
ghost use Rattle.abi_table.specs.TableRecords.{record_of, table_in};
ghost use Rattle.abi_table.specs.declared.types.TableRecord.{TableRecord};
ghost use Rattle.basilothyn.specs.Calls.{event_on_record, empty_record, locate_result, recorded, routed_on, table_of_record};
ghost use Rattle.claims.specs.Statements.{BestOf, InPiece, OneMirrorNamed, PieceLies, ReadAsWritten, ServerAt};
ghost use Rattle.claims.specs.Statements.{by_first_servers, grants_byte, has_right, is_granted_without_flag4, is_one_of};

// ==== The three demands

// ---- Demand 1: a refusal changes nothing, and nothing else is refused

// Demand 1 of the events: a refused one leaves table and store as they were, whatever they are.
pub fn refused_events_change_nothing()
    ensures { (e : Event) (t : Table) (store : List ℕ)
        → ((event_result e t store).answer ≡ 0 → ⊥) → ((event_result e t store).kept ≡ t)
        × ((event_result e t store).store ≡ store) }
{}

// Demand 1 of the exported events: a refused one gives back the record that it was handed, whatever that is, and
// leaves the store as it was.
pub fn refused_calls_keep_records()
    ensures { (e : Event) (given : TableRecord) (store : List ℕ)
        → ((event_on_record e given store).answer ≡ 0 → ⊥)
        → ((event_on_record e given store).kept ≡ given) × ((event_on_record e given store).store ≡ store) }
{}

// Demand 1 of the writers: a refused body leaves the output as it was.
pub fn refused_returns_keep_the_output()
    ensures { (o : Outgoing) (errors : List ErrorEntry) (out : List ℕ) (n : ℕ)
        → return_written o errors (length out) ≡ refused n
        → output_after out (return_written o errors (length out)) ≡ out }
{}

// "Nothing else is refused", of bodies read and written: the numbers that each can be refused with. 0, which
// means accepted, is none of them.
pub fn bodies_refuse_as_listed()
    ensures { ((s : List ℕ) (n : ℕ) → layout_body s ≡ refused n
        → is_one_of n (1 ∷ 2 ∷ 6 ∷ 8 ∷ 9 ∷ 10 ∷ 11 ∷ []) ≡ true)
        × ((s : List ℕ) (n : ℕ) → layout4 s ≡ refused n → is_one_of n (1 ∷ 2 ∷ 3 ∷ 4 ∷ 5 ∷ 6 ∷ 8 ∷ 9 ∷ 10 ∷ 11 ∷ [])
        ≡ true)
        × ((s : List ℕ) (n : ℕ) → device_body s ≡ refused n → is_one_of n (1 ∷ 2 ∷ 6 ∷ 7 ∷ 8 ∷ 12 ∷ []) ≡ true)
        × ((s : List ℕ) (n : ℕ) → return_body s ≡ refused n
        → is_one_of n (1 ∷ 2 ∷ 5 ∷ 6 ∷ 7 ∷ 8 ∷ 27 ∷ 28 ∷ []) ≡ true)
        × ((o : Outgoing) (errors : List ErrorEntry) (room n : ℕ) → return_written o errors room ≡ refused n
        → is_one_of n (5 ∷ 7 ∷ 8 ∷ 26 ∷ 27 ∷ 28 ∷ []) ≡ true)
        × ((count : ℕ) (heads : List ReportHead) (errors : List ErrorEntry) (room n : ℕ)
        → reports_written count heads errors room ≡ refused n
        → is_one_of n (5 ∷ 8 ∷ 26 ∷ 27 ∷ []) ≡ true) }
{}

// "Nothing else is refused": a binding refuses with the number of the layout body, of the device body, or with 16, 8,
// 13, 14 or 15. It reads the server and the filehandle again, and that never fails.
pub fn bindings_refuse_as_listed()
    ensures { (layout : List ℕ) (mirror stripe : ℕ) (device id : List ℕ) (supported n : ℕ)
        → bound_to layout mirror stripe device id supported ≡ refused n
        → (layout_body layout ≡ refused n) ⊎ ((device_body device ≡ refused n)
        ⊎ ((n ≡ 16) ⊎ ((n ≡ 8) ⊎ ((n ≡ 13) ⊎ ((n ≡ 14) ⊎ (n ≡ 15)))))) }
{}

// "Nothing else is refused", of events, on whatever table and store: the numbers that each can be answered, 0 for
// accepted. (A revoke on a table of 64-bit numbers: it never meets 23.)
pub fn events_refuse_as_listed()
    ensures { ((t : Table) (store bytes : List ℕ) → is_one_of (event_result (Grant bytes) t store).answer
        (0 ∷ 20 ∷ 1 ∷ 2 ∷ 3 ∷ 4 ∷ 5 ∷ 6 ∷ 8 ∷ 9 ∷ 10 ∷ 11 ∷ 21 ∷ 22 ∷ 24 ∷ 23 ∷ []) ≡ true)
        × ((t : Table) (store : List ℕ) (offset len number : ℕ)
        → is_one_of (event_result (Return offset len number) t store).answer (0 ∷ 20 ∷ 5 ∷ 3 ∷ 23 ∷ []) ≡ true)
        × ((t : Table) (store : List ℕ) (offset len number : ℕ)
        → is_one_of (event_result (Recall offset len number) t store).answer (0 ∷ 20 ∷ 5 ∷ 3 ∷ 25 ∷ 23 ∷ []) ≡ true)
        × ((t : Table) (store : List ℕ) → Each (EndsBy last_byte) (list_of t.read)
        → Each (EndsBy last_byte) (list_of t.rw)
        → is_one_of (event_result Revoke t store).answer (0 ∷ 20 ∷ []) ≡ true) }
{}

// 20: "table or shelf is unsound", first in the order of events and of requests, whatever else is wrong; a record
// that is no table is unsound.
pub fn unsound_is_20()
    ensures { ((e : Event) (t : Table) (store : List ℕ) → sound t store ≡ false
        → event_result e t store ≡ record { answer = 20; kept = t; store = store })
        × ((write : Bool) (t : Table) (store : List ℕ) (offset len : ℕ) → sound t store ≡ false
        → routed write t store offset len ≡ refused 20)
        × ((e : Event) (given : TableRecord) (store : List ℕ) (n : ℕ) → table_in given ≡ refused n
        → event_on_record e given store ≡ record { answer = 20; kept = given; store = store })
        × ((write : Bool) (given : TableRecord) (store : List ℕ) (offset len n : ℕ) → table_in given ≡ refused n
        → routed_on write given store offset len ≡ locate_result (refused 20)) }
{}

// "Nothing else is refused": an I/O request is refused with 20, 5 or 17. It reads the layout body of a granted
// segment, and that never fails.
pub fn requests_refuse_as_listed()
    ensures { (write : Bool) (t : Table) (store : List ℕ) (offset len n : ℕ)
        → routed write t store offset len ≡ refused n
        → (n ≡ 20) ⊎ (n ≡ 5) ⊎ (n ≡ 17) }
{}

// ---- Demand 2: each offset goes to its stripe and server

// "Each offset goes to the stripe and server of the sparse mapping, at full 64 bits": each byte x of an answered
// piece has the stripe (x div unit) mod servers of the layout body in the answered slot, which is the stripe
// answered; with one server it is 0. The stripe is below the server count and the mirrors are some of the layout's,
// so that at (mirror, stripe) is a data server (`starts_are_servers`).
pub fn pieces_go_to_their_stripe()
    ensures { (write : Bool) (t : Table) (store : List ℕ) (offset len : ℕ) (p : Piece) (l : Layout)
        → routed write t store offset len ≡ accepted p → layout_in store p.slot.0 ≡ accepted l
        → (l.summary.servers ≡ 1 → p.stripe.0 ≡ 0)
        × (1 < l.summary.servers → (x : ℕ) → offset ≤ x → x < offset + p.length → p.stripe.0
        ≡ x / l.summary.unit % l.summary.servers)
        × (p.stripe.0 < l.summary.servers)
        × (1 ≤ p.mirrors) × (p.mirrors < 2 ^ l.summary.mirrors) }
{}

// At each used start of an accepted body is a data server, its device id, efficiency, stateid and filehandle
// count where RFC 8435 has them.
pub fn starts_are_servers()
    ensures { (s : List ℕ) (l : Layout) → layout_body s ≡ accepted l
        → (m k : ℕ) → m < l.summary.mirrors → k < l.summary.servers → ServerAt s (start_at l.starts m k) }
{}

// ---- Demand 3: the table is the reference model's

// Demand 3, undivided, of the calls that `events::apply` is proved to be (its `ensures`, in events/src/stages.rt):
// after every list of events from the empty table and the zeroed store their answers, table and store are those of
// the reference model, which the scope paper calls the ledger (model/specs/Model.antt). `Agreed` in
// model/specs/Claim.antt has each sentence as a field or two. All that these calls keep of a file is its table, at
// first the empty one; the model keeps rights and slots and nothing else (`rights_and_slots`).
pub fn demand_3()
    ensures { Demand3 (λ t. t) empty_table (rights_and_slots last_byte) event_result }
{}

// Demand 3 and where an I/O goes, joined: after every list of events an I/O is served exactly as the rights say that
// the accepted events give its first byte (`served_by_rights`). A write is answered where that byte is granted in RW,
// under the body of that grant; a read where it is granted in RW under a body without flag 4, or else in READ;
// elsewhere the answer is 17. A request that is out of order is 5, and 20 never comes.
pub fn io_goes_by_the_rights_that_events_give()
    ensures { (es : List Event) → Each Fits es → (write : Bool) (offset len : ℕ)
        → given (routed write (kept_left event_result es empty_table zero_store)
        (store_left event_result es empty_table zero_store) offset len)
        (λ p. accepted (served_of (store_left event_result es empty_table zero_store) p))
        ≡ given (request_last offset len) (λ last. served_by_rights write
        (right_given (accepted_of es (answered event_result es empty_table zero_store)) READ offset none)
        (right_given (accepted_of es (answered event_result es empty_table zero_store)) RW offset none)) }
{}

// And not of the first byte alone: each byte of an answered piece is granted by the accepted events, in the iomode
// and under the body of the piece; for a write that iomode is RW.
pub fn each_byte_of_a_piece_is_granted()
    ensures { (es : List Event) → Each Fits es → (write : Bool) (offset len : ℕ) (p : Piece)
        → routed write (kept_left event_result es empty_table zero_store)
        (store_left event_result es empty_table zero_store) offset len ≡ accepted p
        → (m : Mode) × (p.iomode ≡ iomode_for m) × (write ≡ true → m ≡ RW)
        × ((x : ℕ) → offset ≤ x → x < offset + p.length
        → right_given (accepted_of es (answered event_result es empty_table zero_store)) m x none
        ≡ granted (body_in (slot_at (store_left event_result es empty_table zero_store) p.slot.0))) }
{}

// The customer's complaint, "a table that has written after a recall": where a recall that covers a byte in RW is
// among the accepted events, and no grant that covers it there comes after, that byte is in no piece that is answered
// to a write.
pub fn no_write_after_a_recall()
    ensures { (es : List Event) → Each Fits es → (before : List Command) (o : Command) (after : List Command)
        → accepted_of es (answered event_result es empty_table zero_store) ≡ before ++ (o ∷ after) → o.action ≡ recalls
        → (x : ℕ) → covers o RW x ≡ true → Each (λ o. grants_byte RW x o ≡ false) after → (offset len : ℕ) (p : Piece)
        → routed true (kept_left event_result es empty_table zero_store)
        (store_left event_result es empty_table zero_store) offset len ≡ accepted p
        → offset ≤ x → x < offset + p.length → ⊥ }
{}

// Demand 3 of the functions that C links: over every list of calls, each handed the record and the store that the
// last one left. What they keep is a record, at first the empty table's; and the record left is that of the model's
// table.
pub fn demand_3_of_exported_functions()
    ensures { Demand3 table_of_record empty_record (rights_and_slots last_byte) event_on_record
        × ((es : List Event) → Each Fits es
        → kept_left event_on_record es empty_record zero_store
        ≡ record_of (table_of last_byte (run (rights_and_slots last_byte) es start))) }
{}

// ==== What follows

// ---- From demand 2, of bodies

// A number that was written in k bytes is read back, for every width k.
pub fn numbers_written_are_read()
    ensures { (k v : ℕ) → v < 256 ^ k → be_value (be_bytes k v) ≡ v }
{}

// Bytes that were read as a number are written back, for every width k.
pub fn numbers_read_are_written()
    ensures { (k : ℕ) (bs : List ℕ) → length bs ≡ k → AllBytes bs → be_bytes k (be_value bs) ≡ bs }
{}

// "says where each server starts, by mirror and by stripe": in the 128 starts of an accepted body, which are
// `starts_of` its mirrors, the start of mirror m's server k is at the index m * 16 + k.
pub fn starts_are_by_mirror_and_stripe()
    ensures { (mirrors : List (List Server)) → ((m : ℕ) → length (get_or mirrors m []) ≤ most_servers)
        → (m k : ℕ) → k < most_servers → get_or (starts_of mirrors) (m * most_servers + k) 0
        ≡ get_or (map (λ v. v.device) (get_or mirrors m [])) k 0 }
{}

// "with 0 in unused places".
pub fn other_starts_are_zero()
    ensures { (s : List ℕ) (l : Layout) → layout_body s ≡ accepted l
        → (m k : ℕ) → k < most_servers → (l.summary.mirrors ≤ m) ⊎ (l.summary.servers ≤ k)
        → start_at l.starts m k ≡ 0 }
{}

// "flags (4); statistics hint (4, any)", and nothing may follow: the flags of an accepted body are eight bytes before
// its end, where `layout::flags_at_end` takes them.
pub fn flags_are_at_the_end()
    ensures { (s : List ℕ) (l : Layout) → layout_body s ≡ accepted l → flags_at_end s ≡ l.summary.flags }
{}

// "The smallest accepted body has 80 bytes"; of layout4 "The smallest has 108 bytes": no accepted one has fewer, and
// one has so many.
pub fn bodies_have_their_sizes()
    ensures { ((s : List ℕ) (l : Layout) → layout_body s ≡ accepted l → 80 ≤ length s)
        × ((is_accepted (layout_body (body_of 0 1 0)) ≡ true) × (length (body_of 0 1 0) ≡ 80))
        × ((s : List ℕ) (w : WholeLayout) → layout4 s ≡ accepted w → 108 ≤ length s)
        × ((is_accepted (layout4 (grant_bytes 0 1 2 0)) ≡ true) × (length (grant_bytes 0 1 2 0) ≡ 108)) }
{}

// A layout return has 8 bytes, 36 a report, 24 an error, and 248 to 436 a record of statistics: "a body has at most
// 6,856 bytes, and 3,368 without statistics, ..; without statistics one report with one error has 68" (C-13).
pub fn returns_have_their_sizes()
    ensures { ((s : List ℕ) (r : LayoutReturn) → AllBytes s → return_body s ≡ accepted r
        → (length s ≡ 8 + report_head_size * length r.reports + error_size * counts (map (λ x. x.head) r.reports)
        + length (statistics_bytes r.statistics))
        × Each (λ x. (shortest_statistic ≤ length (statistic_bytes x)) × (length (statistic_bytes x) ≤ longest_statistic))
        r.statistics
        × (length s ≤ 6856))
        × ((s : List ℕ) (rs : List Report) → AllBytes s
        → return_body s ≡ accepted (record { reports = rs; statistics = [] }) → length s ≤ 3368)
        × ((s : List ℕ) (x : Report) → AllBytes s
        → return_body s ≡ accepted (record { reports = x ∷ []; statistics = [] })
        → x.head.errors ≡ 1 → length s ≡ 68) }
{}

// What each reader of layout returns hands out is a half of one body, and both refuse alike.
pub fn halves_are_of_one_body()
    ensures { ((s : List ℕ) (r : LayoutReturn) → return_body s ≡ accepted r
        → (report_body s ≡ accepted r.reports) × (statistics_body s ≡ accepted r.statistics))
        × ((s : List ℕ) (n : ℕ) → return_body s ≡ refused n
        → (report_body s ≡ refused n) × (statistics_body s ≡ refused n)) }
{}

// "Reading what was written gives the same records (spare bytes past a length aside)" (C-13), the same reports, and at
// their offsets the same errors, for values that their fields can hold. The first report is at 4, after the count.
pub fn returns_written_are_read()
    ensures { (o : Outgoing) (errors : List ErrorEntry) (room : ℕ) (bs : List ℕ)
        → Each HeadFits (take o.count o.heads) → Each EntryFits errors → Each StatisticFits (sent o)
        → return_written o errors room ≡ accepted bs
        → (return_body bs ≡ accepted (record {
          reports = reports_from (take o.count o.heads) 4;
          statistics = map cleared (sent o);
        }))
        × (entries_in bs (reports_from (take o.count o.heads) 4) ≡ errors) }
{}

// "writing what was read gives the same bytes" (C-13), so no two bodies have the same reports, errors and records.
// room: the output's length.
pub fn returns_read_are_written()
    ensures { ((bs : List ℕ) (r : LayoutReturn) (room : ℕ) → AllBytes bs → length bs ≤ room
        → return_body bs ≡ accepted r
        → return_written (outgoing_of r) (entries_in bs r.reports) room ≡ accepted bs) }
{}

// What was read has no spare bytes but zeros, so writing and reading it again gives the same records.
pub fn records_read_are_clear()
    ensures { ((bs : List ℕ) (r : LayoutReturn) → AllBytes bs → return_body bs ≡ accepted r
        → map cleared r.statistics ≡ r.statistics) }
{}

// A layout return with nothing in it: eight zero bytes.
pub fn nothing_is_eight_zeros()
    ensures { ((heads : List ReportHead) (statistics : List Statistic) (room : ℕ) → 8 ≤ room
        → return_written (record { count = 0; heads = heads; statistic_count = 0; statistics = statistics }) [] room
        ≡ accepted (replicate 8 0))
        × (return_body (replicate 8 0) ≡ accepted (record { reports = []; statistics = [] })) }
{}

// ---- From demand 2, of where an I/O goes

// Where an I/O goes: an answered piece begins with its request, is not empty and not longer, and with more than one
// server lies in one stripe unit.
pub fn pieces_lie_in_request_and_unit()
    ensures { (write : Bool) (t : Table) (store : List ℕ) (offset len : ℕ) (p : Piece)
        → routed write t store offset len ≡ accepted p
        → (1 ≤ p.length) × (p.length ≤ len) × (p.offset ≡ offset)
        × ((l : Layout) → layout_in store p.slot.0 ≡ accepted l → 1 < l.summary.servers
        → offset / l.summary.unit ≡ (offset + p.length - 1) / l.summary.unit) }
{}

// An answered piece lies in one segment of the iomode that it names, granted under the slot that it names; for a
// write that iomode is RW. "The piece answered is the shortest of the request, the rest of that segment, and, with
// more than one server, the rest of the stripe unit": it ends with one of these.
pub fn pieces_lie_in_granted_segments()
    ensures { (write : Bool) (t : Table) (store : List ℕ) (offset len : ℕ) (p : Piece)
        → routed write t store offset len ≡ accepted p
        → PieceLies write t store offset len p }
{}

// No write is answered for a byte that is recalled or not held.
pub fn writes_need_a_grant()
    ensures { (t : Table) (store : List ℕ) (offset len : ℕ) (p : Piece) → routed true t store offset len
        ≡ accepted p
        → right_at (list_in t RW) offset ≡ Granted p.slot }
{}

// "A write needs RW granted. A read needs READ granted, or RW granted under a body without flag 4": on a sound table
// and store a request that is out of order is refused with 5, and one that is in order is answered exactly where its
// first byte has that right, and refused with 17 elsewhere. So "Rights and refusals don't change" (C-11): `has_right`
// does not ask which of two rights is used.
pub fn requests_are_answered_where_they_have_the_right()
    ensures { ((write : Bool) (t : Table) (store : List ℕ) (offset len n : ℕ) → sound t store ≡ true
        → request_last offset len ≡ refused n → routed write t store offset len ≡ refused 5)
        × ((write : Bool) (t : Table) (store : List ℕ) (offset len last : ℕ) → sound t store ≡ true
        → request_last offset len ≡ accepted last
        → (has_right write (right_in t store READ offset) (right_in t store RW offset) ≡ true
        → is_accepted (routed write t store offset len) ≡ true)
        × (has_right write (right_in t store READ offset) (right_in t store RW offset) ≡ false
        → routed write t store offset len ≡ refused 17)) }
{}

// "where both serve at its first byte, RW is used" (C-11): an answered read names RW exactly where RW is granted at
// its first byte under a body without flag 4, whatever READ is there; else it names READ.
pub fn reads_go_through_rw_where_it_serves()
    ensures { (t : Table) (store : List ℕ) (offset len : ℕ) (p : Piece)
        → routed false t store offset len ≡ accepted p
        → (is_granted_without_flag4 (right_in t store RW offset) ≡ true → p.iomode ≡ ReadWrite)
        × (is_granted_without_flag4 (right_in t store RW offset) ≡ false → p.iomode ≡ Read) }
{}

// So a read and a write of the same bytes use one set of mirrors: where a write is answered under a body without flag
// 4, the read of the same request is answered too, with the same bytes of the same body and stripe, and its mirror is
// one of the write's (`ReadAsWritten`).
pub fn reads_go_where_writes_go()
    ensures { (t : Table) (store : List ℕ) (offset len : ℕ) (p : Piece) (l : Layout)
        → routed true t store offset len ≡ accepted p → layout_in store p.slot.0 ≡ accepted l
        → bit 4 l.summary.flags ≡ false
        → (q : Piece) × (routed false t store offset len ≡ accepted q) × ReadAsWritten l p q }
{}

// "A read names one mirror: the highest efficiency, lowest number on a tie; each mirror is judged by the efficiency
// of the server that holds the stripe of the request's first byte." (C-12) "A write names .. with flag 8 only the
// mirror that this same rule picks in the write's own body." `stripe_in l offset` is that byte's stripe, and
// `efficiency_of body starts k m` is the efficiency of mirror m's server of stripe k
// (`mirrors_are_judged_by_their_servers`). The mirrors are a set of bits.
pub fn mirrors_are_named_by_efficiency()
    ensures { (write : Bool) (t : Table) (store : List ℕ) (offset len : ℕ) (p : Piece) (l : Layout)
        → routed write t store offset len ≡ accepted p → layout_in store p.slot.0 ≡ accepted l
        → (write && not (bit 8 l.summary.flags)) ≡ false → (b : ℕ) × (p.mirrors ≡ 2 ^ b)
        × BestOf (efficiency_of (body_in (slot_at store p.slot.0)) l.starts (stripe_in l offset))
        l.summary.mirrors b }
{}

// The number that mirror m is judged by at stripe k is the efficiency of the data server that is read at its start.
// At each used start there is one (`starts_are_servers`), mirror m's of stripe k (`starts_are_by_mirror_and_stripe`).
pub fn mirrors_are_judged_by_their_servers()
    ensures { (s starts : List ℕ) (m k next : ℕ) (v : Server) → server_at s (start_at starts m k) ≡ ok v next
        → efficiency_of s starts k m ≡ v.efficiency }
{}

// Under one layout body a stripe has one mirror, and a byte one stripe: reads, and writes under flag 8, whose pieces
// have the same stripe name the same mirror, and those whose pieces have a byte in common have the same stripe,
// whatever the requests, tables and stores are. So a read under the body of a write under flag 8 goes to the data
// server that has what was written: "A client that has outstanding unstable writes made to single node .. MUST do all
// reads from that same node" (RFC 8435, 8.2.4), of the bytes that it has.
pub fn each_stripe_has_its_mirror()
    ensures { (b : Body) (l : Layout) → layout_body b ≡ accepted l → (p q : Piece) → OneMirrorNamed b l p
        → OneMirrorNamed b l q → (p.stripe.0 ≡ q.stripe.0 → p.mirrors ≡ q.mirrors)
        × ((x : ℕ) → InPiece x p → InPiece x q → p.stripe.0 ≡ q.stripe.0) }
{}

// "A write names all mirrors, as a set of bits", without flag 8, whatever the efficiencies of its stripe are.
pub fn writes_without_flag_8_name_all_mirrors()
    ensures { (t : Table) (store : List ℕ) (offset len : ℕ) (p : Piece) (l : Layout)
        → routed true t store offset len ≡ accepted p → layout_in store p.slot.0 ≡ accepted l
        → bit 8 l.summary.flags ≡ false → p.mirrors ≡ 2 ^ l.summary.mirrors - 1 }
{}

// With one server a mirror the mirrors are those by the first servers (`by_first_servers`): the sentences of 01 and of
// C-12 agree there.
pub fn with_one_server_the_first_is_judged()
    ensures { (write : Bool) (t : Table) (store : List ℕ) (offset len : ℕ) (p : Piece) (l : Layout)
        → routed write t store offset len ≡ accepted p → layout_in store p.slot.0 ≡ accepted l
        → l.summary.servers ≡ 1
        → p.mirrors ≡ by_first_servers write (body_in (slot_at store p.slot.0)) l }
{}

// ---- From demand 3

// Demand 3 of tables of whatever origin: on every sound table and store, as their types have them (`Typed`), an event
// is the step of the model that they show: its answer is the model's, and it leaves the table and the store of the
// model after the event.
pub fn events_on_any_table()
    ensures { (e : Event) (t : Table) (store : List ℕ) → Fits e → Typed last_byte t store → sound t store ≡ true
        → event_result e t store ≡ left_by (rights_and_slots last_byte) (table_of last_byte) e (model_of t store) }
{}

// Soundness is: being the table and the store of some model, one that keeps the invariant of every model after a list
// of events.
pub fn sound_is_of_a_model()
    ensures { ((t : Table) (store : List ℕ) → Typed last_byte t store → sound t store ≡ true → OfModel t store)
        × ((t : Table) (store : List ℕ) → OfModel t store → sound t store ≡ true) }
{}

// Demand 3 fails of calls that refuse everything, with whatever numbers, of calls that answer as any others do and
// change nothing, and of calls that obey any others while nothing is held and then answer as any others do and change
// nothing.
pub fn stand_ins_fall()
    ensures { ((number : Event → Table → List ℕ → ℕ)
        → ((e : Event) (t : Table) (store : List ℕ) → number e t store ≡ 0 → ⊥)
        → Demand3 (λ t. t) empty_table (rights_and_slots last_byte) (refuses_all number) → ⊥)
        × ((call : Calls Table) → Demand3 (λ t. t) empty_table (rights_and_slots last_byte) (changes_nothing call) → ⊥)
        × ((call later : Calls Table)
        → Demand3 (λ t. t) empty_table (rights_and_slots last_byte) (first_only (λ t. t) call later) → ⊥) }
{}

// After every list of events table and store are sound.
pub fn events_leave_sound_tables()
    ensures { (es : List Event) → Each Fits es
        → sound (kept_left event_result es empty_table zero_store) (store_left event_result es empty_table zero_store)
        ≡ true }
{}

// "20 never comes": no event of a list from the empty table is answered 20.
pub fn no_list_meets_20()
    ensures { (es : List Event) → Each Fits es
        → Each (λ n. n ≡ 20 → ⊥) (answered event_result es empty_table zero_store) }
{}

// "a whole-file recall or return (offset 0, length 2^64 - 1) and a revoke never meet 23", on whatever table of 64-bit
// numbers.
pub fn whole_file_events_always_fit()
    ensures { (t : Table) (store : List ℕ)
        → Each (EndsBy last_byte) (list_of t.read) → Each (EndsBy last_byte) (list_of t.rw) → (number : ℕ)
        → ((event_result (Return 0 to_the_end number) t store).answer ≡ 23 → ⊥)
        × ((event_result (Recall 0 to_the_end number) t store).answer ≡ 23 → ⊥)
        × ((event_result Revoke t store).answer ≡ 23 → ⊥) }
{}

// A table crosses to C as a record of plain numbers: the record of a table stands for that table, and what a record
// stands for has that record.
pub fn records_stand_for_tables()
    ensures { ((t : Table) → table_in (record_of t) ≡ accepted t)
        × ((given : TableRecord) (t : Table) → table_in given ≡ accepted t → record_of t ≡ given) }
{}

// The exported events are the events: on the record of a table they leave the record of the table that `event_result`
// leaves.
pub fn exported_events_are_the_events()
    ensures { (e : Event) (t : Table) (store : List ℕ) → event_on_record e (record_of t) store
        ≡ recorded (event_result e t store) }
{}

// The exported lookups are the lookups: on the record of a table they answer what `routed` does on the table.
pub fn exported_lookups_are_the_lookups()
    ensures { (write : Bool) (t : Table) (store : List ℕ) (offset len : ℕ)
        → routed_on write (record_of t) store offset len ≡ locate_result (routed write t store offset len) }
{}

// ---- Worked examples

// The starred lines of the scope paper's worked examples, one list of cases of one type, in
// examples/specs/Examples.antt; those with events on a file of 2^64 bytes.
pub fn worked_examples_hold()
    ensures { Each ExampleHolds examples }
{}

// Other worked examples of the table, on a file of 2^64 bytes: answers and segments of each list of events.
pub fn table_examples_hold()
    ensures { Each cases.CaseHolds cases.cases }
{}
