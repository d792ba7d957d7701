//! The calls on a register.
ghost use Rattle.std.specs.Prelude.{◌≡◌, ◌≤◌, map, length, replicate, IfOk};
ghost use Rattle.calendar.specs.Month.{day_counts};
ghost use Rattle.sheet.specs.Sheet.{read_alone as read_alone_of};
ghost use Rattle.sheet.specs.Facts.{facts};
ghost use Rattle.sheet.specs.Saved.{Fits};
ghost use Rattle.book.specs.Fault.{of_sheet};
ghost use Rattle.book.specs.Needs.{no_need};
ghost use Rattle.book.specs.Register.{Turns, answer_of, days_of, offer_read, periods_of, roll_of, save_answer_of};
ghost use Rattle.book.specs.Roll.{new as new_roll};
ghost use Rattle.book.specs.Step.{BufferAfter, Step};
ghost use Rattle.book.specs.Step.{amend as Amend, enter as Enter, need as SetNeed, save as Save, withdraw as Withdraw};
ghost use Rattle.book.specs.Table.{days_of as table_days, offers_of, periods_of as periods_in};

use crate::fault::RegisterFault;
use crate::need::Need;
use crate::places::Identifier;
use crate::register::Register;
use crate::table::Table;
use calendar::Calendar;
use sheet::{Offer, read_alone};
use short_list::ShortList;
use std::alloc::{AllocError, Global};

/// The highest need of a product in a period, in MW.
pub const HIGHEST_NEED: u64 = 1_000;

impl Register {
    /// The register of the offers of a table, with no needs.
    pub(crate) fn with(table: Table) -> Register
        ensures days { days_of result ≡ table_days table }
        ensures roll { roll_of result ≡ record { offers = offers_of table; needs = replicate (periods_in table) no_need } }
    {
        let needs = ShortList::filled(Need::default(), table.calendar.periods());
        Register { table, needs }
    }

    /// A register for a month, empty and with no needs. The room for all its offers is reserved here, and nowhere else is
    /// memory asked for.
    pub fn open(heap: Global, calendar: Calendar) -> Result<Register, AllocError>
        ensures days { IfOk result (λ register. days_of register ≡ day_counts calendar) }
        ensures roll { IfOk result (λ register. roll_of register ≡ new_roll (length (day_counts calendar))) }
    {
        Ok(Register::with(Table::open(heap, calendar)?))
    }
}

impl Register {
    /// The offer that a text tells of as one sheet.
    fn read(&self, text: &[u8]) -> Result<Offer, RegisterFault>
        ensures offer { offer_read result ≡ of_sheet (read_alone_of (periods_of self.now) text.now) }
        ensures fits { IfOk result (λ offer. Fits (periods_of self.now) (facts offer)) }
    {
        Ok(read_alone(self.table.calendar.periods(), text)?)
    }

    /// Enters the offer that a sheet tells of, at the end.
    pub fn enter(&mut self, text: &[u8]) -> Result<(), RegisterFault>
        ensures { Turns self.old (Enter text.now) (answer_of result) self.new }
    {
        let offer = self.read(text)?;
        self.table.enter(offer)
    }

    /// Puts the offer that a sheet tells of into the place of the one of its name and number, and touches no other.
    pub fn amend(&mut self, text: &[u8]) -> Result<(), RegisterFault>
        ensures { Turns self.old (Amend text.now) (answer_of result) self.new }
    {
        let offer = self.read(text)?;
        self.table.amend(offer)
    }

    /// Takes the offer of that name and number out, and keeps the order of the others.
    pub fn withdraw(&mut self, name: &[u8], number: u64) -> Result<(), RegisterFault>
        ensures { Turns self.old (Withdraw name.now number) (answer_of result) self.new }
    {
        self.table.withdraw(Identifier { name, number })
    }

    /// Sets what a period needs of each product, in MW.
    pub fn need(&mut self, period: u64, rapid: u64, complementary: u64) -> Result<(), RegisterFault>
        ensures { Turns self.old (SetNeed period rapid complementary) (answer_of result) self.new }
    {
        let last = self.table.calendar.periods() as u64;
        if !(1..=last).contains(&period) || rapid > HIGHEST_NEED || complementary > HIGHEST_NEED {
            return Err(RegisterFault::Period(period));
        }
        let need = Need {
            rapid: rapid as u32,
            complementary: complementary as u32,
        };
        self.needs.set(period as usize - 1, need);
        Ok(())
    }

    /// Saves the offer of that name and number as its sheet, from the buffer's start, and tells how many bytes that are. A
    /// refusal leaves the buffer as it was.
    pub fn save(&self, name: &[u8], number: u64, buffer: &mut [u8]) -> Result<usize, RegisterFault>
        ensures step { Step (periods_of self.now) (roll_of self.now) (Save name.now number (length buffer.old)) (save_answer_of buffer.new result) (roll_of self.now) }
        ensures buffer { BufferAfter (save_answer_of buffer.new result) buffer.old buffer.new }
        ensures long { IfOk result (λ long. long ≤ length buffer.old) }
    {
        self.table.save(Identifier { name, number }, buffer)
    }
}

impl Register {
    /// The offers that stand, in order.
    pub fn standing(&self) -> &[Offer]
        ensures { map facts result.now ≡ (roll_of self.now).offers }
    {
        self.table.as_slice()
    }

    /// The calendar of its month.
    pub fn calendar(&self) -> &Calendar
        ensures { day_counts result.now ≡ days_of self.now }
    {
        &self.table.calendar
    }
}
