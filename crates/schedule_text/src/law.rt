// What the definitions mean, in terms of the calendar and of the moments that follow one another.
ghost use Rattle.std.specs.Prelude.{◌≡◌, ◌<◌, ◌≤◌, ◌+◌, ◌/◌, ◌%◌, ℕ, Bool, false, List, Option, Some, None, Err, pos};
ghost use Rattle.jiff_core.specs.Calendar.{IsCivilDate, day_count};
ghost use Rattle.schedule_text.specs.declared.advance.Period.{Period};
ghost use Rattle.schedule_text.specs.declared.error.ScheduleError.TheVariants.{ZeroRepeats};
ghost use Rattle.schedule_text.specs.Range.{end_of_time};
ghost use Rattle.schedule_text.specs.Calendar.{CivilDate, date_of, date_after, day_nanos, days_to, days_to_1970, months_on, IsMonthsAfter};
ghost use Rattle.schedule_text.specs.Firing.{following, is_zero, FiresAt, FiringEnds};
ghost use Rattle.schedule_text.specs.Moments.{moment_at, read_moment};
ghost use Rattle.schedule_text.specs.GoDurations.{signed_sum, go_nanos};
ghost use Rattle.schedule_text.specs.IsoDurations.{ranged, iso_duration, iso_period};
ghost use Rattle.schedule_text.specs.Grammar.{MomentText, AnswersMoment, GoText, AnswersGo};
ghost use Rattle.schedule_text.specs.IsoGrammar.{IsoText, AnswersIso, PeriodText, ranged_period, BeginsZero, AnswersPeriod};

/// What `Schedule::advance` finds is the first moment after now among those that follow by one period each. If it
/// finds none, the next of them would be past the last moment.
pub fn firing_law()
    ensures fires { (period : Period) (moment now r : ℕ) → following period moment now ≡ Some r → FiresAt period now moment r }
    ensures ends { (period : Period) (moment now : ℕ) → moment < end_of_time → is_zero period ≡ false → following period moment now ≡ None → FiringEnds period now moment }
{}

/// Days and dates are those of the Gregorian calendar, which counts the days to a date by adding up its years and
/// months. A date some months after another is in the month that is counted on to, with its day cut to that month, and
/// a moment some months after another is on that date, at the same time of the day.
pub fn calendar_law()
    ensures days { (y m d : ℕ) → 1 ≤ m → m ≤ 12 → 1 ≤ d → days_to y m d ≡ day_count (pos y) m d }
    ensures dates { (day : ℕ) → day < 2932532 → IsCivilDate (pos (date_of day).year) (date_of day).month (date_of day).day }
    ensures days_of_dates { (day : ℕ) → day < 2932532 → days_to (date_of day).year (date_of day).month (date_of day).day ≡ day + days_to_1970 }
    ensures months { (date : CivilDate) (months : ℕ) → 1 ≤ date.month → IsMonthsAfter date months (date_after date months) }
    ensures sums { (moment months : ℕ) → moment < end_of_time → months_on moment months / day_nanos + days_to_1970 ≡ days_to (date_after (date_of (moment / day_nanos)) months).year (date_after (date_of (moment / day_nanos)) months).month (date_after (date_of (moment / day_nanos)) months).day }
    ensures times { (moment months : ℕ) → moment < end_of_time → months_on moment months % day_nanos ≡ moment % day_nanos }
{}

/// A text that has the form of a moment reads as the moment that its fields spell, and no other text is read. A fault
/// is at the first byte that no text of a moment has there: some text of a moment has the bytes before it, and none has
/// that byte as well. If two digits are a field out of its range, the fault is at the first of them.
pub fn moment_law()
    ensures form { (instant : ℕ × ℕ) (text : List ℕ) → MomentText instant text → read_moment text ≡ moment_at instant }
    ensures answers { (text : List ℕ) → AnswersMoment text (read_moment text) }
{}

/// A text that has the form of a duration as Go writes it reads as the sum of its terms, each cut down to whole
/// nanoseconds, with its sign, and no other text is read. A fault is at the first byte that no text of a duration has
/// there: some text of a duration has the bytes before it, and none has that byte as well.
pub fn go_duration_law()
    ensures form { (negative : Bool) (sum : ℕ) (text : List ℕ) → GoText negative sum text → go_nanos text ≡ signed_sum negative sum }
    ensures answers { (text : List ℕ) → AnswersGo text (go_nanos text) }
{}

/// A text that has the form of a duration of ISO 8601 reads as its months and nanoseconds, if they are in range, and no
/// other text is read. A fault is at the first byte that no text of a duration has there.
pub fn iso_duration_law()
    ensures form { (amounts : ℕ × ℕ) (text : List ℕ) → IsoText amounts text → iso_duration text ≡ ranged amounts }
    ensures answers { (text : List ℕ) → AnswersIso text (iso_duration text) }
{}

/// A text that has the form of a period of ISO 8601 reads as its count and its amounts, if they are in range, and no
/// other text is read; a count of 0 is refused, whatever follows it. A fault is at the first byte that no text of a
/// period has there.
pub fn iso_period_law()
    ensures form { (count : Option ℕ) (amounts : ℕ × ℕ) (text : List ℕ) → PeriodText count amounts text → iso_period text ≡ ranged_period count amounts }
    ensures zero { (text : List ℕ) → BeginsZero text → iso_period text ≡ Err ZeroRepeats }
    ensures answers { (text : List ℕ) → AnswersPeriod text (iso_period text) }
{}
