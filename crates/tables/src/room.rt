// The words lent for the tables: five slices, since nothing is allocated and each row is so many words of its table.
#[derive(Drop)]
pub struct Room<'a> {
    pub datas: &'a mut [u64],
    pub ctors: &'a mut [u64],
    pub fields: &'a mut [u64],
    pub fns: &'a mut [u64],
    pub params: &'a mut [u64],
}
