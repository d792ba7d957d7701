/// What a period needs of each product, in MW.
#[derive(Clone, Copy, PartialEq, Eq, Debug, Default)]
pub struct Need {
    pub rapid: u32,
    pub complementary: u32,
}
